// The digit group over a whole number x with a shift L: k cells, the lowest base-b digits of how far x is from L, lowest first. In a true
// table x is not below L, so that this is x - L. Its rows are that each cell is a digit below b, and then that the digits' value is x - L
// modulo p. FORMAT 7.4, 7.5
ghost use Rattle.std.specs.Prelude.{◌≡◌, ◌++◌, ◌+◌, ◌/◌, ◌%◌, ◌^◌, ◌≤◌, ◌<◌, ℕ, pos, ◌-ℤ◌, ℤ, length, drop};
ghost use Rattle.meaning.specs.Machine.{past_u64};
ghost use Rattle.algebra.specs.Digits.{digits as lowest_digits};
ghost use Rattle.meaning.specs.Number.{remainder};
ghost use Rattle.meaning.specs.Row.{Form, eval, holds, group};
ghost use Rattle.meaning.specs.Gadget.Digits.{group_cells};
ghost use Rattle.number.specs.Bounded.{Bounded};
ghost use Rattle.groups.specs.Rows.{rows_meaning, first_refusal};
ghost use Rattle.groups.specs.Cells.{form_bound};

use super::digits::Digits;
use super::rows::row_before;
use number::residue::{residue_at, set_residue, with_digit};
use number::whole::distance;
use number::{Cell, Residue, Whole};

// ---- cells

// n / b, and what it leaves. For base 2, the one most in use, the divisor stands in the code, and no division is left of it.
pub fn divided(n: u64, b: u32) -> u64
    requires { 0 < b }
    ensures { result ≡ n / b }
{
    if b == 2 { n / 2 } else { n / u64::from(b) }
}

fn digit(n: u64, b: u32) -> Residue
    requires { 0 < b }
    ensures { result.0 ≡ n % b }
{
    if b == 2 {
        Residue::from((n % 2) as u32)
    } else {
        Residue::from((n % u64::from(b)) as u32)
    }
}

// The digits of n, from the lowest on: each is what division by b leaves. Here and in the two functions below b and k stay two parameters, as any base
// above 0 and any count will do, where `Digits` keeps what the rules ask of a line.
pub fn group_cells(out: &mut [u32], n: u64, b: u32, k: usize)
    requires { (0 < b) × (k ≤ length out.old) }
    ensures { out.new ≡ lowest_digits b k n ++ drop k out.old }
{
    let mut rest = n;
    // By index: a remainder is written into lent memory at its place (`set_residue`), a rule of the project.
    for i in 0..k {
        set_residue(out, Cell::from(i), digit(rest, b));
        rest = divided(rest, b);
    }
}

// The group over a whole number with a shift.
#[tactic(auto, unfolding(meaning::specs::Gadget::Digits::group_cells))]
pub fn form_cells(out: &mut [u32], form: Whole, shift: Whole, b: u32, k: usize)
    requires { (0 < b) × (k ≤ length out.old) × Bounded form_bound form.0 × Bounded form_bound shift.0 }
    ensures { out.new ≡ group_cells b k form.0 shift.0 ++ drop k out.old }
{
    group_cells(out, distance(form, shift), b, k);
}

// Two groups with shift 0, one after the other.
pub fn two_groups(out: &mut [u32], first: Whole, second: Whole, b: u32, k: usize)
    requires { (0 < b) × (k + k ≤ length out.old) × Bounded form_bound first.0 × Bounded form_bound second.0 }
    ensures { out.new ≡ group_cells b k first.0 (pos 0) ++ group_cells b k second.0 (pos 0) ++ drop (k + k) out.old }
{
    form_cells(out, first, Whole::from(0), b, k);
    form_cells(&mut out[k..], second, Whole::from(0), b, k);
}

// ---- rows

// The rows of a group over the k cells from the one called `at`, whose number modulo p is `number`, for every p from b^k on. `first` is the
// number that the first of these rows has in its line. Digits below b have a value below b^k, so that it is its own remainder: nothing is
// reduced. In each turn it is the value of the digits before, and part is the power of b below which it is. Each power waits for the one
// before it, and that is most of the time, so that a turn takes two digits to one step of the power. A last digit may be left over.
pub fn group_rows(
    table: &[u32],
    number: Residue,
    first: usize,
    at: Cell,
    digits: Digits,
) -> Result<(), usize>
    requires { (at.0 + digits.count ≤ length table.now) × (first + digits.count < past_u64) }
    ensures { (p : ℕ) (f : Form) (L : ℤ) → digits.base ^ digits.count ≤ p → remainder p (eval table.now f -ℤ L) ≡ number.0
        → rows_meaning result ≡ first_refusal (holds p table.now) first (group f L at.0 digits.base digits.count) }
{
    let base = Residue::from(digits.base);
    let mut value = Residue::from(0);
    let mut part: u32 = 1;
    // By index: `residue_at` reads a cell at its place (a rule of the project), and a pair's number gives both places and both rows.
    for pair in 0..digits.count / 2 {
        let i = 2 * pair;
        let low = residue_at(table, at.after(i));
        if low >= base {
            return Err(first + i);
        }
        let high = residue_at(table, at.after(i + 1));
        if high >= base {
            return Err(first + i + 1);
        }
        value = with_digit(value, with_digit(low, high, digits.base), part);
        part *= digits.base * digits.base;
    }
    if digits.count % 2 == 1 {
        let i = digits.count - 1;
        let last = residue_at(table, at.after(i));
        if last >= base {
            return Err(first + i);
        }
        value = with_digit(value, last, part);
    }
    row_before(number == value, first + digits.count, Ok(()))
}
