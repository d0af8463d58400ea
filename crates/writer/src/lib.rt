// Writes a list that is given as words and numbers: the text of the format, or the refusal that this text would get. The lines are read and their bytes
// counted, and only when nothing is refused is the buffer written; the text stands nowhere but there.
#![tactic(auto)]

mod survey;

ghost use Rattle.meaning.specs.Write.{text_of};
ghost use Rattle.given_lines.specs.Given.{lines_of};
ghost use Rattle.writer.specs.Survey.{IsFirstRefusal};
ghost use Rattle.writer.specs.Claims.{Writes};

use given_lines::{Given, text_length, write_text};
use refusal::{Refusal, Refused};
use survey::survey_given;

// The public call: for all lines and every buffer the reply of the definitions, with the text's length where it is written, and the buffer that it
// leaves. The rows come one by one, as the public call has them, and a caller is asked no more; below it they are `Given`.
// FORMAT 9.23, 9.26, 9.27, 10.21
pub fn write(
    words: &[u8],
    counts: &[usize],
    numbers: &[i64],
    buffer: &mut [u8],
) -> Result<usize, Refused>
    ensures { Writes words.now counts.now numbers.now buffer.old result buffer.new }
{
    if words.is_empty() {
        return Err(Refusal::TextNotEnded.at(0));
    }
    let given = Given {
        words,
        counts,
        numbers,
    };
    // `map_err` was tried, and that its closure keeps the promise of `first_refusal` is not proved.
    match survey_given(given) {
        Err(refused) => Err(first_refusal(given, refused)),
        Ok(None) => Err(Refusal::TextTooLong.at(0)),
        Ok(Some(length)) => {
            if buffer.len() < length {
                return Err(Refusal::BufferTooShort.at(0));
            }
            Ok(write_text(buffer, given))
        }
    }
}

// The refusal of lines of which the survey refuses one with `refused`: a text that is too long is refused before any line is read. It is measured
// here alone, as a list that is read has its bytes counted on the way. FORMAT 10.1, 13.1
fn first_refusal(given: Given<'_>, refused: Refused) -> Refused
    ensures { IsFirstRefusal (text_of (lines_of given.entry)) refused result }
{
    if text_length(given).is_none() {
        return Refusal::TextTooLong.at(0);
    }
    refused
}
