// A line `relu v b k`: the statement is that of the sign over v, and the value y is the greater of 0 and v. Its cells are those of y and
// of the sign; its rows are those of the sign, the last of which is f·v ≡ y. FORMAT 3.9, 7.13
ghost use Rattle.std.specs.Prelude.{◌≡◌, cond, [], ◌∷◌, ℕ, ◌+◌, ◌^◌, ◌≤◌, ◌<◌, pos, ℤ, length};
ghost use Rattle.meaning.specs.Known.{larger, Known, place_of};
ghost use Rattle.meaning.specs.Row.{holds};
ghost use Rattle.meaning.specs.Refusal.{value, refused_by};
ghost use Rattle.meaning.specs.Gadget.Sign.{sign_statement};
ghost use Rattle.meaning.specs.Gadget.Relu.{relu_line};
ghost use Rattle.groups.specs.Cells.{worked_meaning};
ghost use Rattle.groups.specs.Rows.{rows_meaning, first_refusal};

use super::value::Value;
use groups::cells::GroupTable;
use groups::digits::Digits;
use groups::sign::{sign_rows, sign_works};
use number::residue::{product, sum};
use number::{Cell, Residue, Whole};
use refusal::Refusal;

// ---- working

#[tactic(auto, unfolding(meaning::specs::Known::larger))]
pub fn relu_value(v: Value) -> Whole
    ensures { result.0 ≡ larger (pos 0) v.whole.0 }
{
    Whole::from(0).max(v.whole)
}

pub fn relu_works(v: Value, digits: Digits) -> Result<Option<Whole>, Refusal>
    ensures { worked_meaning result
        ≡ cond (sign_statement digits.base digits.count v.whole.0) (value (larger (pos 0) v.whole.0 ∷ [])) (refused_by 18) }
{
    if sign_works(v.whole, digits.base, digits.power()) {
        Ok(Some(relu_value(v)))
    } else {
        Err(Refusal::StatementFalse)
    }
}

// ---- rows

pub fn relu_rows(group: GroupTable, place: Cell, at: Cell) -> Result<(), usize>
    requires { (place.0 < length group.table.cells.now) × (at.0 + group.digits.count + 3 ≤ length group.table.cells.now) }
    ensures { let p = group.entry.table.p in let t = group.entry.table.cells.now in
        (s : Known) (v : ℕ) → s.p ≡ p → place_of s v ≡ place.0 → s.cells ≡ at.0
        → rows_meaning result ≡ first_refusal (holds p t) 0 (relu_line s v group.entry.digits.base group.entry.digits.count).rows }
{
    let GroupTable { table, digits } = group;
    let value = table.at(place);
    let number = sum(value, Residue::from(digits.top_part()), table.p);
    let flag = table.at(at.after(1 + digits.count));
    let kept = product(flag, value, table.p);
    let made = table.at(at);
    sign_rows(group, number, kept == made, at.after(1))
}
