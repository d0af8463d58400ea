// Reads given lines without their text: line 0, then line after line until one is refused, by the reader's own steps. The refusal and its place are
// those that a text with these lines has, if it is not too long. Beside it the bytes of the text are counted, so that its lines are looked at once.
ghost use Rattle.std.specs.Prelude.{◌≡◌, ◌<◌, length};
ghost use Rattle.meaning.specs.Write.{text_of};
ghost use Rattle.text.specs.Word.{word_of};
ghost use Rattle.rules.specs.Yield.{line_with};
ghost use Rattle.given_lines.specs.Given.{lines_of};
ghost use Rattle.writer.specs.Survey.{StepReady, AsFirst, AsLater, FoundYield};

use given_lines::{Given, TEXT_LIMIT, line_given};
use reader::{Parsed, State, first_parsed};
use refusal::{Refusal, Refused};

// What line n does to what is known: line 0 gives p, and each later line is read over it. Both are told apart here, and not by the walk, so that the
// walk takes a line at one place alone, where the compiler then puts all of `line_given`.
fn advance(n: usize, line: Parsed, state: &mut State) -> Result<(), Refusal>
    requires { StepReady n state.old }
    ensures first { n ≡ 0 → AsFirst (line_with (word_of line.entry.word) line.entry.numbers.now) state.old state.new result }
    ensures later { 0 < n → AsLater (line_with (word_of line.entry.word) line.entry.numbers.now) state.old state.new result }
{
    if n == 0 {
        state.p = first_parsed(line)?;
        return Ok(());
    }
    state.step(line)
}

// How many bytes the text of these lines has, if none of them is refused, and none where it is too long: that is seen where its bytes pass the limit, and
// refused before any later line. FORMAT 9.26, 10.1
pub fn survey_given(given: Given<'_>) -> Result<Option<usize>, Refused>
    requires { 0 < length given.words.now }
    ensures { FoundYield (text_of (lines_of given.entry)) result }
{
    // Over no p (0) until line 0 gives it. A state made of line 0's p would have line 0 before the loop, and `line_given` at two places: each line
    // pays for a call (docs/DECISIONS.md).
    let mut state = State::over(0);
    let mut total: usize = 0;
    for (n, line) in given.lines().enumerate() {
        let Some(read) = line_given(line) else {
            return Err(Refusal::NoLine.at(n));
        };
        let parsed = Parsed {
            word: read.word,
            numbers: line.numbers,
        };
        advance(n, parsed, &mut state).map_err(|refusal| refusal.at(n))?;
        total += read.size;
        let too_long = TEXT_LIMIT < total;
        if too_long {
            return Ok(None);
        }
    }
    Ok(Some(total))
}
