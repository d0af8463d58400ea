// Whole numbers in a machine word: read out of a lent slice and written to it, made of counts and back, their order, the range -M..M, and the
// operations where the result fits.
ghost use Rattle.std.specs.Prelude.{◌≡◌, ◌&&◌, ◌<◌, ltb, pos, nat_abs, neg_ℤ, ◌+ℤ◌, ◌-ℤ◌, ◌*ℤ◌, length, get_or, set, ◌≤ℤ◌};
ghost use Rattle.std.specs.Int.Signed.{mag, non_neg, le_z, lt_z};
ghost use Rattle.std.specs.Int.{w64};
ghost use Rattle.std.proofs.Common.{SFits};
ghost use Rattle.meaning.specs.Known.{larger, smaller};
ghost use Rattle.meaning.specs.Machine.{past_i64};
ghost use Rattle.meaning.specs.Number.{between, in_range, lowest, highest};

// A whole number.
#[derive(Clone, Copy, PartialEq, Eq, PartialOrd, Ord)]
pub struct Whole(pub(crate) i64);

// A count, as a whole number.
impl From<u32> for Whole {
    ghost from_gives = { λ n x. x.0 ≡ pos n };

    fn from(n: u32) -> Whole {
        Whole(i64::from(n))
    }
}

// ---- numbers of a lent slice. Not generic functions, one each with those of `residue`: the name says at each use which kind of
// number the lent memory holds (docs/DECISIONS.md)

// The number at a place.
pub fn whole_at(numbers: &[i64], at: usize) -> Whole
    requires { at < length numbers.now }
    ensures { result.0 ≡ get_or numbers.now at (pos 0) }
{
    Whole(numbers[at])
}

// Writes a whole number to a place.
pub fn set_whole(numbers: &mut [i64], at: usize, x: Whole)
    requires { at < length numbers.old }
    ensures { numbers.new ≡ set numbers.old at x.0 }
{
    numbers[at] = x.0;
}

// ---- counts as whole numbers, and back

// A count of a u64. No `From`, which would be of every u64, and no `TryFrom`, whose error no caller can meet: the clause says that it fits.
pub fn wide_whole(n: u64) -> Whole
    requires { n < past_i64 }
    ensures { result.0 ≡ pos n }
{
    Whole(n as i64)
}

// A number that is not negative, as a count. No `From` and no `TryFrom`, as for `wide_whole`.
pub fn size_of(x: Whole) -> usize
    requires { pos 0 ≤ℤ x.0 }
    ensures { result ≡ nat_abs x.0 }
{
    x.0 as usize
}

// The same where it may be negative: 0 where it is. It is the library's conversion, of the i64 that only this crate opens. 0 and no
// Option: its callers promise nothing of a number below zero either, but that a digit count is 31 at most.
pub fn natural(x: Whole) -> usize
    ensures { pos 0 ≤ℤ x.0 → result ≡ nat_abs x.0 }
{
    usize::try_from(x.0).unwrap_or(0)
}

// ---- order

// The library's test, of the i64 that only this crate opens.
pub fn is_negative(x: Whole) -> bool
    ensures { result ≡ lt_z x.0 (pos 0) }
{
    x.0.is_negative()
}

// Whether x is one of the n numbers from 0 on, also by the library, of the i64 that only this crate opens.
pub fn is_below(x: Whole, n: usize) -> bool
    ensures { result ≡ non_neg x.0 && ltb (nat_abs x.0) n }
{
    usize::try_from(x.0).is_ok_and(|i| i < n)
}

// Whether x lies from low to high, either of them with it.
#[tactic(auto, unfolding(meaning::specs::Number::between))]
pub fn within(low: Whole, x: Whole, high: Whole) -> bool
    ensures { result ≡ between low.0 x.0 high.0 }
{
    (low..=high).contains(&x)
}

// ---- the range -M..M, M = (p-1)/2, of the whole numbers that remainders modulo p stand for

#[tactic(auto, unfolding(meaning::specs::Number::half, meaning::specs::Number::highest))]
pub fn highest(p: u32) -> Whole
    requires { 0 < p }
    ensures { result.0 ≡ highest p }
{
    Whole::from((p - 1) / 2)
}

#[tactic(auto, unfolding(meaning::specs::Number::half, meaning::specs::Number::highest, meaning::specs::Number::lowest))]
pub fn lowest(p: u32) -> Whole
    requires { 0 < p }
    ensures { result.0 ≡ lowest p }
{
    negated(highest(p))
}

#[tactic(auto, unfolding(meaning::specs::Number::in_range))]
pub fn in_range(x: Whole, p: u32) -> bool
    requires { 0 < p }
    ensures { result ≡ in_range p x.0 }
{
    within(lowest(p), x, highest(p))
}

// ---- arithmetic, where the result fits

// -x.
pub fn negated(x: Whole) -> Whole
    requires { SFits w64 (neg_ℤ x.0) }
    ensures { result.0 ≡ neg_ℤ x.0 }
{
    Whole(-x.0)
}

// a + b.
pub fn whole_sum(a: Whole, b: Whole) -> Whole
    requires { SFits w64 (a.0 +ℤ b.0) }
    ensures { result.0 ≡ a.0 +ℤ b.0 }
{
    Whole(a.0 + b.0)
}

// a - b.
pub fn whole_difference(a: Whole, b: Whole) -> Whole
    requires { SFits w64 (a.0 -ℤ b.0) }
    ensures { result.0 ≡ a.0 -ℤ b.0 }
{
    Whole(a.0 - b.0)
}

// a · b.
pub fn whole_product(a: Whole, b: Whole) -> Whole
    requires { SFits w64 (a.0 *ℤ b.0) }
    ensures { result.0 ≡ a.0 *ℤ b.0 }
{
    Whole(a.0 * b.0)
}

// How far x and y are from each other.
pub fn distance(x: Whole, y: Whole) -> u64
    requires { SFits w64 (x.0 -ℤ y.0) × SFits w64 (y.0 -ℤ x.0) }
    ensures { result ≡ nat_abs (x.0 -ℤ y.0) }
{
    x.0.abs_diff(y.0)
}

// What is left without the sign: n both of n and of -(n + 1), so that the lowest i64 has one too. Not the library's
// `unsigned_abs`: what is left is that of the remainder below zero too (`remainder_of`), and std's `mag` is its definition.
pub fn magnitude(x: Whole) -> u64
    ensures { result ≡ mag x.0 }
{
    let z = x.0;
    if z < 0 { (-1 - z) as u64 } else { z as u64 }
}
