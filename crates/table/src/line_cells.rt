// Writing the cells of a line of any kind, once its own value is known. The one cell of an input and of a sum is that of this value:
// a sum is not added up again. FORMAT 7.7
ghost use Rattle.text.specs.Word.{word_of};
ghost use Rattle.table.specs.LineValues.{CellsGiven, CellsYield};

use super::max::max_cells;
use super::relu::relu_value;
use super::root::root_cells;
use super::value::value_at;
use super::which::which_value;
use groups::group::form_cells;
use groups::numbers::digits_from;
use groups::sign::signed_cells;
use groups::value::value_cell;
use number::whole::{whole_at, whole_difference};
use text::Word;

// The values are those before the line. `made` is a part of the values, none or one, the one that the line makes: an Option would be made of it for every
// line, where two kinds of eight look at it.
pub fn line_cells(
    word: Word,
    numbers: &[i64],
    p: u32,
    values: &[i64],
    made: &[i64],
    part: &mut [u32],
)
    requires { CellsGiven p (word_of word) numbers.now values.now made.now part.old }
    ensures { CellsYield p (word_of word) numbers.now values.now made.now part.old part.new }
{
    // A match, and no table of functions: what a kind's function takes differs (names, digits, a shift), and the compiler calls each one directly.
    match word {
        Word::Field => {}
        Word::In | Word::Sum => value_cell(part, p, whole_at(made, 0)),
        Word::Span => {
            let v = value_at(numbers, 0, values);
            let digits = digits_from(numbers, 1);
            form_cells(
                part,
                v.whole,
                whole_at(numbers, 3),
                digits.base,
                digits.count,
            );
        }
        Word::Relu => {
            let v = value_at(numbers, 0, values);
            signed_cells(part, p, relu_value(v), v.whole, digits_from(numbers, 1));
        }
        Word::Which => {
            let u = value_at(numbers, 0, values);
            let v = value_at(numbers, 1, values);
            let x = whole_difference(u.whole, v.whole);
            signed_cells(part, p, which_value(u, v), x, digits_from(numbers, 2));
        }
        Word::Max => {
            let u = value_at(numbers, 0, values);
            let v = value_at(numbers, 1, values);
            max_cells(part, p, u, v, digits_from(numbers, 2));
        }
        Word::Root => {
            let v = value_at(numbers, 0, values);
            root_cells(part, p, v, digits_from(numbers, 1));
        }
    }
}
