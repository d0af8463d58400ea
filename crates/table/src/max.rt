// A line `max u v b k`: u and v are less than c = b^k apart, and the value y is the greater of them. Its cells are those of y, of the
// group over y - u and of the group over y - v, both with shift 0; its rows are (y-u)·(y-v) ≡ 0 and those of the two groups.
// FORMAT 3.11, 7.15
ghost use Rattle.std.specs.Prelude.{◌≡◌, cond, [], ◌∷◌, ◌++◌, ℕ, suc, ◌*◌, ◌^◌, ◌≤◌, ◌<◌, ◌+◌, ltb, nat_abs, ◌-ℤ◌, ℤ, length, drop};
ghost use Rattle.meaning.specs.Known.{larger, Known, place_of};
ghost use Rattle.meaning.specs.Row.{holds};
ghost use Rattle.meaning.specs.Refusal.{value, refused_by};
ghost use Rattle.meaning.specs.Gadget.Max.{max_line};
ghost use Rattle.groups.specs.Cells.{worked_meaning};
ghost use Rattle.groups.specs.Rows.{rows_meaning, first_refusal};
ghost use Rattle.table.specs.Max.{max_cells};

use super::value::Value;
use groups::cells::GroupTable;
use groups::digits::Digits;
use groups::group::{group_rows, two_groups};
use groups::rows::row_before;
use groups::value::value_cell;
use number::residue::{difference, product};
use number::whole::{distance, whole_difference};
use number::{Cell, Residue, Whole};
use refusal::Refusal;

// ---- working

#[tactic(auto, unfolding(meaning::specs::Known::larger))]
pub fn max_value(u: Value, v: Value) -> Value
    ensures { result.whole.0 ≡ larger u.whole.0 v.whole.0 }
{
    Value {
        whole: u.whole.max(v.whole),
    }
}

pub fn max_works(u: Value, v: Value, digits: Digits) -> Result<Option<Whole>, Refusal>
    ensures { worked_meaning result ≡ cond (ltb (nat_abs (u.whole.0 -ℤ v.whole.0)) (digits.base ^ digits.count))
        (value (larger u.whole.0 v.whole.0 ∷ [])) (refused_by 18) }
{
    if distance(u.whole, v.whole) < digits.power() {
        Ok(Some(max_value(u, v).whole))
    } else {
        Err(Refusal::StatementFalse)
    }
}

// ---- cells

pub fn max_cells(out: &mut [u32], p: u32, u: Value, v: Value, digits: Digits)
    requires { (0 < p) × (suc (2 * digits.count) ≤ length out.old) }
    ensures { out.new ≡ max_cells p digits.base digits.count u.whole.0 v.whole.0 ++ drop (suc (2 * digits.count)) out.old }
{
    let y = max_value(u, v).whole;
    value_cell(out, p, y);
    let over_u = whole_difference(y, u.whole);
    let over_v = whole_difference(y, v.whole);
    two_groups(&mut out[1..], over_u, over_v, digits.base, digits.count);
}

// ---- rows

pub fn max_rows(group: GroupTable, place_u: Cell, place_v: Cell, at: Cell) -> Result<(), usize>
    requires { (place_u.0 < length group.table.cells.now) × (place_v.0 < length group.table.cells.now)
        × (at.0 + 1 + 2 * group.digits.count ≤ length group.table.cells.now) }
    ensures { let p = group.entry.table.p in let t = group.entry.table.cells.now in
        (s : Known) (u v : ℕ) → s.p ≡ p → place_of s u ≡ place_u.0 → place_of s v ≡ place_v.0 → s.cells ≡ at.0
        → rows_meaning result ≡ first_refusal (holds p t) 0 (max_line s u v group.entry.digits.base group.entry.digits.count).rows }
{
    let GroupTable { table, digits } = group;
    let k = digits.count;
    let made = table.at(at);
    let over_u = difference(made, table.at(place_u), table.p);
    let over_v = difference(made, table.at(place_v), table.p);
    let either = product(over_u, over_v, table.p);
    let group_u = group_rows(table.cells, over_u, 1, at.after(1), digits);
    let group_v = group_rows(table.cells, over_v, k + 2, at.after(1 + k), digits);
    row_before(either == Residue::from(0), 0, group_u.and(group_v))
}
