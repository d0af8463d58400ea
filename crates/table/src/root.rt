// A line `root v b k`: 0 ≤ v < c = b^k, and the value r is the floor of the square root of v. Its cells are those of r and of its square
// q, then the groups over v, r, v - q and q + 2r - v with shift 0; its rows are r·r ≡ q and those of the four groups. FORMAT 3.12, 7.16
ghost use Rattle.std.specs.Prelude.{◌≡◌, cond, [], ◌∷◌, ◌++◌, ℕ, ◌+◌, ◌*◌, ◌^◌, ◌≤◌, ◌<◌, pos, ◌-ℤ◌, ◌*ℤ◌, ℤ, length, drop};
ghost use Rattle.meaning.specs.Number.{between, remainder};
ghost use Rattle.meaning.specs.Known.{Known, place_of};
ghost use Rattle.meaning.specs.Row.{Form, holds};
ghost use Rattle.meaning.specs.Refusal.{value, refused_by};
ghost use Rattle.meaning.specs.Gadget.Root.{root_value, root_line};
ghost use Rattle.groups.specs.Cells.{worked_meaning};
ghost use Rattle.groups.specs.Rows.{rows_meaning, first_refusal, Leaves};
ghost use Rattle.table.specs.Root.{rest_cells, root_cells, four_groups};

use super::value::Value;
use groups::cells::GroupTable;
use groups::digits::Digits;
use groups::group::{group_rows, two_groups};
use groups::rows::row_before;
use groups::value::value_cell;
use number::residue::{difference, product, sum};
use number::root::square_root;
use number::whole::{distance, whole_difference, whole_product, whole_sum, wide_whole, within};
use number::{Cell, Residue, Whole};
use refusal::Refusal;

// ---- working

pub fn root_value(v: Value) -> Value
    ensures { result.whole.0 ≡ root_value v.whole.0 }
{
    let root = square_root(distance(v.whole, Whole::from(0)));
    Value {
        whole: wide_whole(root),
    }
}

pub fn root_works(v: Value, digits: Digits) -> Result<Option<Whole>, Refusal>
    ensures { worked_meaning result ≡ cond (between (pos 0) v.whole.0 (pos (digits.base ^ digits.count) -ℤ pos 1))
        (value (root_value v.whole.0 ∷ [])) (refused_by 18) }
{
    let top = whole_difference(wide_whole(digits.power()), Whole::from(1));
    if within(Whole::from(0), v.whole, top) {
        Ok(Some(root_value(v).whole))
    } else {
        Err(Refusal::StatementFalse)
    }
}

// ---- cells

pub fn root_cells(out: &mut [u32], p: u32, v: Value, digits: Digits)
    requires { (0 < p) × (2 + 4 * digits.count ≤ length out.old) }
    ensures { out.new ≡ root_cells p digits.base digits.count v.whole.0 ++ drop (2 + 4 * digits.count) out.old }
{
    let r = root_value(v);
    square_cells(out, p, r);
    two_groups(&mut out[2..], v.whole, r.whole, digits.base, digits.count);
    let at = 2 + 2 * digits.count;
    rest_cells(&mut out[at..], v, r, digits);
}

// The cells of r and of its square.
fn square_cells(out: &mut [u32], p: u32, r: Value)
    requires { (0 < p) × (2 ≤ length out.old) }
    ensures { out.new ≡ remainder p r.whole.0 ∷ remainder p (r.whole.0 *ℤ r.whole.0) ∷ drop 2 out.old }
{
    value_cell(out, p, r.whole);
    let square = whole_product(r.whole, r.whole);
    value_cell(&mut out[1..], p, square);
}

// The groups over v less the square of r, and over what is left from v up to the last number before the next square.
fn rest_cells(out: &mut [u32], v: Value, r: Value, digits: Digits)
    requires { digits.count + digits.count ≤ length out.old }
    ensures { out.new ≡ rest_cells digits.base digits.count v.whole.0 r.whole.0 ++ drop (digits.count + digits.count) out.old }
{
    let q = whole_product(r.whole, r.whole);
    let above = whole_difference(v.whole, q);
    let twice = whole_product(Whole::from(2), r.whole);
    let below = whole_difference(whole_sum(q, twice), v.whole);
    two_groups(out, above, below, digits.base, digits.count);
}

// ---- rows

pub fn root_rows(group: GroupTable, place: Cell, at: Cell) -> Result<(), usize>
    requires { (2 < group.table.p) × (place.0 < length group.table.cells.now) × (at.0 + 2 + 4 * group.digits.count ≤ length group.table.cells.now) }
    ensures { let p = group.entry.table.p in let t = group.entry.table.cells.now in
        (s : Known) (v : ℕ) → s.p ≡ p → place_of s v ≡ place.0 → s.cells ≡ at.0
        → rows_meaning result ≡ first_refusal (holds p t) 0 (root_line s v group.entry.digits.base group.entry.digits.count).rows }
{
    let table = group.table;
    let p = table.p;
    let value = table.at(place);
    let root = table.at(at);
    let square = table.at(at.after(1));
    let squared = product(root, root, p);
    let over = difference(value, square, p);
    let twice = sum(root, root, p);
    let under = difference(sum(square, twice, p), value, p);
    let later = four_groups(group, value, root, over, under, at.after(2));
    row_before(squared == square, 0, later)
}

// The four groups, after one row, over the forms A to D that leave these remainders modulo p.
fn four_groups(
    group: GroupTable,
    value: Residue,
    root: Residue,
    over: Residue,
    under: Residue,
    at: Cell,
) -> Result<(), usize>
    requires { at.0 + 4 * group.digits.count ≤ length group.table.cells.now }
    ensures { let p = group.entry.table.p in let t = group.entry.table.cells.now in
        (A B C D : Form) → Leaves p t value.0 A → Leaves p t root.0 B → Leaves p t over.0 C → Leaves p t under.0 D
        → rows_meaning result ≡ first_refusal (holds p t) 1 (four_groups A B C D at.0 group.entry.digits.base group.entry.digits.count) }
{
    let GroupTable { table, digits } = group;
    let k = digits.count;
    let first = group_rows(table.cells, value, 1, at, digits);
    let second = group_rows(table.cells, root, k + 2, at.after(k), digits);
    let third = group_rows(table.cells, over, 2 * k + 3, at.after(2 * k), digits);
    let fourth = group_rows(table.cells, under, 3 * k + 4, at.after(3 * k), digits);
    first.and(second.and(third.and(fourth)))
}
