// A line `sum c0 c1 v1 c2 v2 ..`: the value y is c0 + c1·v1 + c2·v2 + .., its one cell is that of y, and its one row is that y is this sum
// modulo p. The two loops add by other operations: the one whole numbers, over the values, the other remainders modulo p, over their cells. FORMAT 3.8, 7.8
ghost use Rattle.std.specs.Prelude.{◌≡◌, ◌<◌, ℕ, ℤ, length, take};
ghost use Rattle.meaning.specs.Word.{number_at, without_first};
ghost use Rattle.meaning.specs.Known.{Known};
ghost use Rattle.meaning.specs.Row.{holds};
ghost use Rattle.meaning.specs.Gadget.Sum.{terms_of, sum_line};
ghost use Rattle.groups.specs.Rows.{rows_meaning, first_refusal};
ghost use Rattle.table.specs.Sum.{sum_of, SumGiven, PlacesInside};

use groups::cells::Table;
use groups::numbers::{place_at, value_named};
use groups::rows::row_before;
use number::residue::{product, remainder_of, sum};
use number::whole::{whole_at, whole_product, whole_sum};
use number::{Cell, Whole};

// ---- working

pub fn sum_works(numbers: &[i64], values: &[i64]) -> Whole
    requires { SumGiven numbers.now values.now }
    ensures { result.0 ≡ sum_of numbers.now values.now }
{
    let mut total = whole_at(numbers, 0);
    for term in numbers[1..].chunks_exact(2) {
        let value = value_named(term, 1, values);
        total = whole_sum(total, whole_product(whole_at(term, 0), value));
    }
    total
}

// ---- rows

pub fn sum_rows(table: Table, at: Cell, numbers: &[i64], places: &[u16]) -> Result<(), usize>
    requires { (at.0 < length table.cells.now) × (0 < length numbers.now) × PlacesInside numbers.now places.now (length table.cells.now) }
    ensures { let p = table.entry.p in let t = table.entry.cells.now in
        (s : Known) → s.p ≡ p → s.cells ≡ at.0 → s.places ≡ places.now
        → rows_meaning result ≡ first_refusal (holds p t) 0 (sum_line s (number_at numbers.now 0) (terms_of (without_first numbers.now))).rows }
{
    let mut total = remainder_of(whole_at(numbers, 0), table.p);
    for term in numbers[1..].chunks_exact(2) {
        let factor = remainder_of(whole_at(term, 0), table.p);
        let place = place_at(term, 1, places);
        let part = product(factor, table.at(place), table.p);
        total = sum(total, part, table.p);
    }
    let made = table.at(at);
    row_before(made == total, 0, Ok(()))
}
