// Remainders modulo p, for every p that a u32 holds: the signed reading, the remainder of a whole number, and the
// operations. Products are taken in a u64, where they are exact. p is a parameter, and that a remainder is below it a clause: a `Residue`
// that kept its p would be two words, where a table lends one, and what is asked of p differs (above 0, prime).
ghost use Rattle.std.specs.Prelude.{◌≡◌, ◌+◌, ◌*◌, ◌%◌, ◌<◌, eqb, ltb, pos, ◌+ℤ◌, ◌-ℤ◌, ◌*ℤ◌, length, get_or, set};
ghost use Rattle.meaning.specs.Machine.{past_u32};
ghost use Rattle.meaning.specs.Number.{remainder, signed};

use super::cell::Cell;
use super::whole::{Whole, magnitude};

// A remainder, below the p that it is of, which its users say: the type keeps no p.
#[derive(Clone, Copy, PartialEq, Eq, PartialOrd, Ord)]
pub struct Residue(pub(crate) u32);

// A number below p is its own remainder.
impl From<u32> for Residue {
    ghost from_gives = { λ n residue. residue.0 ≡ n };

    fn from(n: u32) -> Residue {
        Residue(n)
    }
}

// ---- cells of a lent table. Not generic functions, one each with those of `whole`: the name says at each use which kind of
// number the lent memory holds (docs/DECISIONS.md)

// What stands in a cell.
pub fn residue_at(table: &[u32], at: Cell) -> Residue
    requires { at.0 < length table.now }
    ensures { result.0 ≡ get_or table.now at.0 0 }
{
    Residue(table[at.0])
}

// Writes a remainder into a cell.
pub fn set_residue(table: &mut [u32], at: Cell, r: Residue)
    requires { at.0 < length table.old }
    ensures { table.new ≡ set table.old at.0 r.0 }
{
    table[at.0] = r.0;
}

// ---- the two readings

// The whole number that r stands for: r where it is at most M = (p-1)/2, else r - p.
#[tactic(auto, unfolding(meaning::specs::Number::signed, meaning::specs::Number::highest, meaning::specs::Number::half))]
pub fn signed_value(r: Residue, p: u32) -> Whole
    requires { r.0 < p }
    ensures { result.0 ≡ signed p r.0 }
{
    let x = r.0;
    let half = (p - 1) / 2;
    if x <= half {
        Whole(i64::from(x))
    } else {
        Whole(i64::from(x) - i64::from(p))
    }
}

// n modulo p. A number below p, as most are, is left as it is, without a division.
fn reduced(n: u64, p: u32) -> u32
    requires { 0 < p }
    ensures { result ≡ n % p }
{
    if n < u64::from(p) {
        n as u32
    } else {
        (n % u64::from(p)) as u32
    }
}

// The remainder that x leaves modulo p, also of the lowest i64: below zero, x is -(m + 1) for its magnitude m.
#[tactic(auto, unfolding(meaning::specs::Number::remainder))]
pub fn remainder_of(x: Whole, p: u32) -> Residue
    requires { 0 < p }
    ensures { result.0 ≡ remainder p x.0 }
{
    let m = reduced(magnitude(x), p);
    if x.0 < 0 {
        Residue(p - (m + 1))
    } else {
        Residue(m)
    }
}

// ---- arithmetic

// The value of some digits and one more, which counts `part` times: below p it is its own remainder, and nothing is reduced.
pub fn with_digit(value: Residue, digit: Residue, part: u32) -> Residue
    requires { value.0 + digit.0 * part < past_u32 }
    ensures { result.0 ≡ value.0 + digit.0 * part }
{
    Residue(value.0 + digit.0 * part)
}

// a + b modulo p, without a division: a + b, or a + b - p where that is p or more.
pub fn sum(a: Residue, b: Residue, p: u32) -> Residue
    requires { (a.0 < p) × (b.0 < p) }
    ensures { (result.0 < p) × (result.0 ≡ remainder p (pos a.0 +ℤ pos b.0)) }
{
    let room = p - b.0;
    if a.0 < room {
        Residue(a.0 + b.0)
    } else {
        Residue(a.0 - room)
    }
}

// a - b modulo p, without a division: a - b, or a - b + p where a is the lesser.
pub fn difference(a: Residue, b: Residue, p: u32) -> Residue
    requires { (a.0 < p) × (b.0 < p) }
    ensures { (result.0 < p) × (result.0 ≡ remainder p (pos a.0 -ℤ pos b.0)) }
{
    if a.0 < b.0 {
        Residue(a.0 + (p - b.0))
    } else {
        Residue(a.0 - b.0)
    }
}

// a · b modulo p, also where a or b is p or more.
#[tactic(auto, unfolding(meaning::specs::Number::remainder))]
pub fn product(a: Residue, b: Residue, p: u32) -> Residue
    requires { 0 < p }
    ensures { (result.0 < p) × (result.0 ≡ remainder p (pos a.0 *ℤ pos b.0)) }
{
    let exact = u64::from(a.0) * u64::from(b.0);
    Residue(reduced(exact, p))
}
