// A given line as the reader's steps ask for it: its word, if its numbers belong to it. What its text would be refused for is found here without the
// text: a code that no word has, a wrong count, a number of too great a size. While the numbers are looked at, their bytes are counted. FORMAT 10.3
ghost use Rattle.std.specs.Prelude.{◌≡◌, false, ◌&&◌, ◌≤◌, leb, ltb, length, nat_abs};
ghost use Rattle.std.specs.Int.Signed.{non_neg};
ghost use Rattle.meaning.specs.Text.{largest};
ghost use Rattle.meaning.specs.Word.{most_numbers};
ghost use Rattle.given_lines.specs.Line.{MoreBytesYield, FieldBytesYield, ReadableYield};

use super::given::GivenLine;
use super::short::{is_down_to, is_short};
use number::Whole;
use number::whole::{is_below, is_negative, magnitude, whole_at};
use output::number_length;
use text::{LARGEST, Word, is_count};

// The word of a line that is one, and how many bytes its text has with the one that ends it.
#[derive(Clone, Copy)]
pub struct Readable {
    pub word: Word,
    pub size: usize,
}

// Whether the size of a number is allowed. By `magnitude`, as `output` has it: the library's `unsigned_abs` would be a second size beside it. FORMAT 2.6
fn is_sized(x: Whole) -> bool
    ensures { result ≡ leb (nat_abs x.0) largest }
{
    let size = magnitude(x);
    if is_negative(x) {
        return size < LARGEST;
    }
    size <= LARGEST
}

// How many bytes more than two a number and its tab have, of a number that is no single digit, if its size is allowed.
fn more_bytes(x: Whole) -> Option<usize>
    requires { (non_neg x.0 && ltb (nat_abs x.0) 10) ≡ false }
    ensures { MoreBytesYield x.0 result }
{
    if is_short(x) {
        if is_down_to(x, 9) {
            return Some(1);
        }
        return Some(2);
    }
    if is_sized(x) {
        return Some(number_length(x) - 1);
    }
    None
}

// How many bytes numbers have with their tabs, if the sizes of all are allowed: two for each, as most have, and what others have more.
fn fields_length(numbers: &[i64]) -> Option<usize>
    requires { length numbers.now ≤ most_numbers }
    ensures { FieldBytesYield numbers.now result }
{
    let mut total = 2 * numbers.len();
    // By index: a whole number is read out of lent memory at its place (`whole_at`), a rule of the project. An iterator of `number` over whole numbers
    // would serve four loops alone.
    for i in 0..numbers.len() {
        let x = whole_at(numbers, i);
        if !is_below(x, 10) {
            total += more_bytes(x)?;
        }
    }
    Some(total)
}

// The line as it is read, if its text is a line. FORMAT 2.9, 3.1, 4.5
pub fn line_given(line: GivenLine<'_>) -> Option<Readable>
    ensures { ReadableYield line.entry result }
{
    let word = line.word?;
    if !is_count(word, line.numbers.len()) {
        return None;
    }
    let bytes = fields_length(line.numbers)?;
    Some(Readable {
        word,
        size: word.spelling().len() + bytes + 1,
    })
}
