// A line `span v b k L`: L ≤ v ≤ L + c - 1 with c = b^k. It makes no value. Its cells and its rows are those of the group over v with
// shift L. FORMAT 3.7, 7.9
ghost use Rattle.std.specs.Prelude.{◌≡◌, cond, [], ℕ, ◌^◌, ◌≤◌, ◌<◌, ◌+◌, ℤ, length};
ghost use Rattle.meaning.specs.Number.{between};
ghost use Rattle.meaning.specs.Known.{Known, place_of};
ghost use Rattle.meaning.specs.Row.{holds};
ghost use Rattle.meaning.specs.Refusal.{value, refused_by};
ghost use Rattle.meaning.specs.Gadget.Span.{span_top, span_line};
ghost use Rattle.number.specs.Bounded.{Bounded};
ghost use Rattle.groups.specs.Rows.{rows_meaning, first_refusal};
ghost use Rattle.groups.specs.Cells.{worked_meaning, power_bound};

use super::value::Value;
use groups::cells::GroupTable;
use groups::digits::Digits;
use groups::group::group_rows;
use number::residue::{difference, remainder_of};
use number::whole::{whole_sum, wide_whole, within};
use number::{Cell, Whole};
use refusal::Refusal;

// ---- working

#[tactic(auto, unfolding(meaning::specs::Gadget::Span::span_top))]
pub fn span_works(v: Value, digits: Digits, shift: Whole) -> Result<Option<Whole>, Refusal>
    requires { Bounded power_bound shift.0 }
    ensures { worked_meaning result ≡ cond (between shift.0 v.whole.0 (span_top digits.base digits.count shift.0)) (value []) (refused_by 18) }
{
    let top = whole_sum(shift, wide_whole(digits.power() - 1));
    if within(shift, v.whole, top) {
        Ok(None)
    } else {
        Err(Refusal::StatementFalse)
    }
}

// ---- rows

pub fn span_rows(group: GroupTable, place: Cell, at: Cell, shift: Whole) -> Result<(), usize>
    requires { (place.0 < length group.table.cells.now) × (at.0 + group.digits.count ≤ length group.table.cells.now) }
    ensures { let p = group.entry.table.p in let t = group.entry.table.cells.now in
        (s : Known) (v : ℕ) → s.p ≡ p → place_of s v ≡ place.0 → s.cells ≡ at.0
        → rows_meaning result ≡ first_refusal (holds p t) 0 (span_line s v group.entry.digits.base group.entry.digits.count shift.0).rows }
{
    let GroupTable { table, digits } = group;
    let lowest = remainder_of(shift, table.p);
    let number = difference(table.at(place), lowest, table.p);
    group_rows(table.cells, number, 0, at, digits)
}
