// Working a line of any kind: the value that it makes, where its statement is true.
ghost use Rattle.text.specs.Word.{word_of};
ghost use Rattle.table.specs.LineValues.{ValuesGiven, WorkYield};

use super::max::max_works;
use super::relu::relu_works;
use super::root::root_works;
use super::span::span_works;
use super::sum::sum_works;
use super::value::value_at;
use super::which::which_works;
use groups::numbers::digits_from;
use number::Whole;
use number::whole::whole_at;
use refusal::Refusal;
use text::Word;

// The values are those before the line. Next is the next input, which is the value of a line `in`. FORMAT 3.6
#[tactic(auto, using(crate::proofs::WorksLine::line_yields))]
pub fn line_works(
    word: Word,
    numbers: &[i64],
    values: &[i64],
    next: Whole,
) -> Result<Option<Whole>, Refusal>
    requires { ValuesGiven (word_of word) numbers.now values.now }
    ensures { WorkYield (word_of word) numbers.now values.now next.0 result }
{
    // A match, and no table of functions: what a kind's function takes differs (names, digits, a shift), and the compiler calls each one directly.
    match word {
        Word::Field => Ok(None),
        Word::In => Ok(Some(next)),
        Word::Span => {
            let v = value_at(numbers, 0, values);
            span_works(v, digits_from(numbers, 1), whole_at(numbers, 3))
        }
        Word::Sum => Ok(Some(sum_works(numbers, values))),
        Word::Relu => relu_works(value_at(numbers, 0, values), digits_from(numbers, 1)),
        Word::Which => {
            let u = value_at(numbers, 0, values);
            let v = value_at(numbers, 1, values);
            which_works(u, v, digits_from(numbers, 2))
        }
        Word::Max => {
            let u = value_at(numbers, 0, values);
            let v = value_at(numbers, 1, values);
            max_works(u, v, digits_from(numbers, 2))
        }
        Word::Root => root_works(value_at(numbers, 0, values), digits_from(numbers, 1)),
    }
}
