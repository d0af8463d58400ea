// How long the text of given lines is. It is measured only up to the limit of a text: so no sum overflows, however many numbers there are.
ghost use Rattle.std.specs.Prelude.{◌≡◌, ◌+◌, ◌≤◌, length};
ghost use Rattle.meaning.specs.Refusal.{text_limit};
ghost use Rattle.meaning.specs.Write.{word_text, text_of};
ghost use Rattle.given_lines.specs.Given.{word_meaning, line_text, line_meaning, lines_of};
ghost use Rattle.given_lines.specs.Measure.{LengthYield};

use super::given::{Given, GivenLine};
use number::whole::whole_at;
use output::number_length;
use text::Word;

// A text of more bytes is refused. FORMAT 4.8
pub const TEXT_LIMIT: usize = 65536;

// How many bytes spell a word: none where there is none.
#[tactic(auto, unfolding(meaning::specs::Write::word_text))]
fn word_length(word: Option<Word>) -> usize
    ensures { result ≡ length (word_text (word_meaning word)) }
{
    word.map_or(0, |known| known.spelling().len())
}

// The length with that of one more line, if it is within the limit.
fn line_length(line: GivenLine<'_>, before: usize) -> Option<usize>
    requires { before ≤ text_limit }
    ensures { LengthYield (before + length (line_text (line_meaning line.entry))) result }
{
    let mut total = before + word_length(line.word) + 1;
    // By index: a whole number is read out of lent memory at its place (`whole_at`), a rule of the project.
    for i in 0..line.numbers.len() {
        if TEXT_LIMIT < total {
            return None;
        }
        total += 1 + number_length(whole_at(line.numbers, i));
    }
    if TEXT_LIMIT < total {
        return None;
    }
    Some(total)
}

// The length of the text of all lines, if it is within the limit. FORMAT 9.26, 10.1
pub fn text_length(given: Given<'_>) -> Option<usize>
    ensures { LengthYield (length (text_of (lines_of given.entry))) result }
{
    let mut total: usize = 0;
    for line in given.lines() {
        total = line_length(line, total)?;
    }
    Some(total)
}
