// What relu and which share: the sign of a whole number x. The statement is -B ≤ x ≤ b^(k-1) - 1 with B = (b-1)·b^(k-1). The cells are the
// digits of x + B, whose top digit is b - 1 just where x is not negative, then f, which says so, and w, which shows it where f is 0. The
// rows are those of the group over x with shift -B, three that tie f to the top digit by w, and last the line's own.
// FORMAT 7.10, 7.11, 7.12
ghost use Rattle.std.specs.Prelude.{◌≡◌, ◌++◌, List, [], ◌∷◌, ℕ, ◌+◌, ◌-◌, ◌^◌, ◌≤◌, ◌<◌, pos, ◌-ℤ◌, length, drop};
ghost use Rattle.meaning.specs.Machine.{past_u64};
ghost use Rattle.meaning.specs.Number.{remainder, OddPrime};
ghost use Rattle.meaning.specs.Row.{Form, cell, constant, ◌⊖◌, ◌⊗◌, eval, Row, ◌≅◌, holds};
ghost use Rattle.meaning.specs.Gadget.Sign.{sign_statement, sign_cells, sign_shift, sign_rows};
ghost use Rattle.number.specs.Bounded.{Bounded};
ghost use Rattle.groups.specs.Cells.{flag_cells, power_bound};
ghost use Rattle.groups.specs.Rows.{rows_meaning, first_refusal, Leaves};

use super::cells::GroupTable;
use super::digits::Digits;
use super::group::{divided, group_cells, group_rows};
use super::rows::row_before;
use super::value::value_cell;
use number::inverse::inverse_of;
use number::residue::{difference, product, residue_at, set_residue};
use number::whole::{distance, negated, whole_difference, wide_whole, within};
use number::{Cell, Residue, Whole};

// ---- working

// -B
#[tactic(auto, unfolding(meaning::specs::Gadget::Sign::sign_shift))]
fn sign_shift(digits: Digits) -> Whole
    ensures { result.0 ≡ sign_shift digits.base digits.count }
{
    negated(Whole::from(digits.top_part()))
}

// Whether the statement is true of x, with c = b^k: c / b is b^(k-1), and the rest of c is B.
pub fn sign_works(x: Whole, b: u32, c: u64) -> bool
    requires { (0 < b) × (c ≤ power_bound) }
    ensures { (k : ℕ) → 1 ≤ k → c ≡ b ^ k → result ≡ sign_statement b k x.0 }
{
    let part = divided(c, b);
    let high = whole_difference(wide_whole(part), Whole::from(1));
    within(negated(wide_whole(c - part)), x, high)
}

// ---- cells

fn sign_cells(out: &mut [u32], p: u32, x: Whole, digits: Digits)
    requires { OddPrime p × (digits.base ^ digits.count ≤ p) × (digits.count + 2 ≤ length out.old) × Bounded power_bound x.0 }
    ensures { out.new ≡ sign_cells p digits.base digits.count x.0 ++ drop (digits.count + 2) out.old }
{
    let n = distance(x, sign_shift(digits));
    group_cells(out, n, digits.base, digits.count);
    let top = residue_at(out, Cell::from(digits.count - 1));
    flag_cells(&mut out[digits.count..], p, top, digits.base);
}

// The cells of a line that makes the value y and has the sign of x.
pub fn signed_cells(out: &mut [u32], p: u32, y: Whole, x: Whole, digits: Digits)
    requires { OddPrime p × (digits.base ^ digits.count ≤ p) × (digits.count + 3 ≤ length out.old) × Bounded power_bound x.0 }
    ensures { out.new ≡ (remainder p y.0 ∷ sign_cells p digits.base digits.count x.0) ++ drop (digits.count + 3) out.old }
{
    value_cell(out, p, y);
    sign_cells(&mut out[1..], p, x, digits);
}

// f and w, from the top digit, which with b - 1 taken away is t: 1 and 0 where t is 0 modulo p, else 0 and the inverse of t.
fn flag_cells(out: &mut [u32], p: u32, digit: Residue, b: u32)
    requires { OddPrime p × (digit.0 < b) × (b ≤ p) × (2 ≤ length out.old) }
    ensures { out.new ≡ flag_cells p (remainder p (pos digit.0 -ℤ pos (b - 1))) ++ drop 2 out.old }
{
    let t = difference(digit, Residue::from(b - 1), p);
    if t == Residue::from(0) {
        two_cells(out, Residue::from(1), Residue::from(0));
    } else {
        let w = inverse_of(t, p);
        two_cells(out, Residue::from(0), w);
    }
}

fn two_cells(out: &mut [u32], first: Residue, second: Residue)
    requires { 2 ≤ length out.old }
    ensures { out.new ≡ first.0 ∷ second.0 ∷ drop 2 out.old }
{
    set_residue(out, Cell::from(0), first);
    set_residue(out, Cell::from(1), second);
}

// ---- rows

// The rows over the group at the k cells from `at` on, and over f and w after them; `last` is whether the row that the line puts last
// holds.
pub fn sign_rows(group: GroupTable, number: Residue, last: bool, at: Cell) -> Result<(), usize>
    requires { at.0 + group.digits.count + 2 ≤ length group.table.cells.now }
    ensures { let p = group.entry.table.p in let t = group.entry.table.cells.now in let b = group.entry.digits.base in let k = group.entry.digits.count in
        (form : Form) (row : Form → Row) → remainder p (eval t form -ℤ sign_shift b k) ≡ number.0
        → last ≡ holds p t (row (cell (at.0 + k))) → rows_meaning result ≡ first_refusal (holds p t) 0 (sign_rows form at.0 b k row) }
{
    let GroupTable { table, digits } = group;
    let k = digits.count;
    let digit = table.at(at.after(k - 1));
    let top = difference(digit, Residue::from(digits.base - 1), table.p);
    let flag = table.at(at.after(k));
    let witness = table.at(at.after(k + 1));
    let later = flag_rows(table.p, top, flag, witness, last, k + 1);
    group_rows(table.cells, number, 0, at, digits).and(later)
}

// The rows t·w ≡ 1-f, t·f ≡ 0 and w·f ≡ 0, the first of them of the number `row` in its line, and then the last. The answer is the same in
// every table in which the forms T, F and W leave these remainders.
fn flag_rows(
    p: u32,
    top: Residue,
    flag: Residue,
    witness: Residue,
    last: bool,
    row: usize,
) -> Result<(), usize>
    requires { (1 < p) × (flag.0 < p) × (row + 3 < past_u64) }
    ensures { (t : List ℕ) (T F W : Form) (x : Row) → Leaves p t top.0 T → Leaves p t flag.0 F → Leaves p t witness.0 W
        → last ≡ holds p t x → rows_meaning result ≡ first_refusal (holds p t) row (T ⊗ W ≅ constant (pos 1) ⊖ F ∷ T ⊗ F ≅ constant (pos 0)
        ∷ W ⊗ F ≅ constant (pos 0) ∷ x ∷ []) }
{
    let zero = Residue::from(0);
    let other = difference(Residue::from(1), flag, p);
    let shown = product(top, witness, p);
    let full = product(top, flag, p);
    let unused = product(witness, flag, p);
    let last_row = row_before(last, row + 3, Ok(()));
    let last_two = row_before(unused == zero, row + 2, last_row);
    let last_three = row_before(full == zero, row + 1, last_two);
    row_before(shown == other, row, last_three)
}
