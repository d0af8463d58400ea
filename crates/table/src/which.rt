// A line `which u v b k`: the statement is that of the sign over u - v, and the value y is 0 where u is at least v, else 1. Its cells are
// those of y and of the sign; its rows are those of the sign, the last of which is y ≡ 1-f. FORMAT 3.10, 7.14
ghost use Rattle.std.specs.Prelude.{◌≡◌, cond, [], ◌∷◌, ℕ, ◌+◌, ◌^◌, ◌≤◌, ◌<◌, ◌-ℤ◌, ℤ, length};
ghost use Rattle.meaning.specs.Known.{Known, place_of};
ghost use Rattle.meaning.specs.Row.{holds};
ghost use Rattle.meaning.specs.Refusal.{value, refused_by};
ghost use Rattle.meaning.specs.Gadget.Sign.{sign_statement};
ghost use Rattle.meaning.specs.Gadget.Which.{which_value, which_line};
ghost use Rattle.groups.specs.Cells.{worked_meaning};
ghost use Rattle.groups.specs.Rows.{rows_meaning, first_refusal};

use super::value::Value;
use groups::cells::GroupTable;
use groups::digits::Digits;
use groups::sign::{sign_rows, sign_works};
use number::residue::{difference, sum};
use number::whole::whole_difference;
use number::{Cell, Residue, Whole};
use refusal::Refusal;

// ---- working

#[tactic(auto, unfolding(meaning::specs::Gadget::Which::which_value))]
pub fn which_value(u: Value, v: Value) -> Whole
    ensures { result.0 ≡ which_value u.whole.0 v.whole.0 }
{
    if v.whole <= u.whole {
        Whole::from(0)
    } else {
        Whole::from(1)
    }
}

pub fn which_works(u: Value, v: Value, digits: Digits) -> Result<Option<Whole>, Refusal>
    ensures { worked_meaning result ≡ cond (sign_statement digits.base digits.count (u.whole.0 -ℤ v.whole.0))
        (value (which_value u.whole.0 v.whole.0 ∷ [])) (refused_by 18) }
{
    if sign_works(
        whole_difference(u.whole, v.whole),
        digits.base,
        digits.power(),
    ) {
        Ok(Some(which_value(u, v)))
    } else {
        Err(Refusal::StatementFalse)
    }
}

// ---- rows

pub fn which_rows(group: GroupTable, place_u: Cell, place_v: Cell, at: Cell) -> Result<(), usize>
    requires { (place_u.0 < length group.table.cells.now) × (place_v.0 < length group.table.cells.now)
        × (at.0 + group.digits.count + 3 ≤ length group.table.cells.now) }
    ensures { let p = group.entry.table.p in let t = group.entry.table.cells.now in
        (s : Known) (u v : ℕ) → s.p ≡ p → place_of s u ≡ place_u.0 → place_of s v ≡ place_v.0 → s.cells ≡ at.0
        → rows_meaning result ≡ first_refusal (holds p t) 0 (which_line s u v group.entry.digits.base group.entry.digits.count).rows }
{
    let GroupTable { table, digits } = group;
    let apart = difference(table.at(place_u), table.at(place_v), table.p);
    let number = sum(apart, Residue::from(digits.top_part()), table.p);
    let flag = table.at(at.after(1 + digits.count));
    let other = difference(Residue::from(1), flag, table.p);
    let made = table.at(at);
    sign_rows(group, number, made == other, at.after(1))
}
