// The rows of a line of a list that was read, by its word.
ghost use Rattle.text.specs.Word.{word_of};
ghost use Rattle.table.specs.LineRows.{RowsGiven, RowsYield};

use super::max::max_rows;
use super::relu::relu_rows;
use super::root::root_rows;
use super::span::span_rows;
use super::sum::sum_rows;
use super::which::which_rows;
use groups::cells::{GroupTable, Table};
use groups::numbers::{digits_from, place_at};
use number::Cell;
use number::whole::whole_at;
use text::Word;

// The first row of a line that fails, counted from 0 in the line. Places has the cell of each value before the line. A field line and an input line have none. FORMAT 7.7
pub fn line_rows(
    word: Word,
    numbers: &[i64],
    table: Table,
    at: Cell,
    places: &[u16],
) -> Result<(), usize>
    requires { RowsGiven table.p (word_of word) numbers.now table.cells.now at.0 places.now }
    ensures { RowsYield table.entry.p (word_of word) numbers.now table.entry.cells.now at.0 places.now result }
{
    // A match, and no table of functions: what a kind's function takes differs (names, digits, a shift), and the compiler calls each one directly.
    match word {
        Word::Field | Word::In => Ok(()),
        Word::Span => {
            let v = place_at(numbers, 0, places);
            let digits = digits_from(numbers, 1);
            span_rows(GroupTable { table, digits }, v, at, whole_at(numbers, 3))
        }
        Word::Sum => sum_rows(table, at, numbers, places),
        Word::Relu => {
            let v = place_at(numbers, 0, places);
            let digits = digits_from(numbers, 1);
            relu_rows(GroupTable { table, digits }, v, at)
        }
        Word::Which => {
            let u = place_at(numbers, 0, places);
            let v = place_at(numbers, 1, places);
            let digits = digits_from(numbers, 2);
            which_rows(GroupTable { table, digits }, u, v, at)
        }
        Word::Max => {
            let u = place_at(numbers, 0, places);
            let v = place_at(numbers, 1, places);
            let digits = digits_from(numbers, 2);
            max_rows(GroupTable { table, digits }, u, v, at)
        }
        Word::Root => {
            let v = place_at(numbers, 0, places);
            let digits = digits_from(numbers, 1);
            root_rows(GroupTable { table, digits }, v, at)
        }
    }
}
