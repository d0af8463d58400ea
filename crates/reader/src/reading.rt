// Reading a list: the text as a whole, line 0, then line after line until one is refused. A line is parsed here, and
// read in `first` and `state`.
ghost use Rattle.std.specs.Prelude.{◌≡◌, ◌≤◌, length};
ghost use Rattle.meaning.specs.Refusal.{plain, read_from, reading};
ghost use Rattle.meaning.specs.Number.{OddPrime};
ghost use Rattle.text.specs.Place.{lines_from};
ghost use Rattle.meaning.specs.Reply.{read_reply};
ghost use Rattle.rules.specs.Ready.{greatest};
ghost use Rattle.reader.specs.Read.{only, survey_of, survey_meaning, PrimeFound, answer_meaning, Exact};

use super::counts::Counts;
use super::first::first_parsed;
use super::line::Parsed;
use super::state::State;
use lines::line_of;
use refusal::{Refusal, Refused};
use text::{MOST_NUMBERS, Text};

// p and all the counts of a list that is read.
#[derive(Clone, Copy)]
pub struct Surveyed {
    pub p: u32,
    pub counts: Counts,
}

// What is replied of a list that is read.
#[derive(Clone, Copy)]
pub struct Summary {
    pub p: u32,
    pub values: usize,
    pub cells: usize,
    pub rows: usize,
}

// The public call: for every byte string the reply of the definitions, and so the first refusal that fits the text, or none. FORMAT 9.4
pub fn read(list: &[u8]) -> Result<Summary, Refused>
    ensures replied { answer_meaning result ≡ read_reply list.now }
    ensures exact { Exact list.now (answer_meaning result) }
{
    let found = survey(list)?;
    // Made here alone: a `From` would be longer than this.
    Ok(Summary {
        p: found.p,
        values: found.counts.values,
        cells: usize::from(found.counts.cells),
        rows: found.counts.rows,
    })
}

// The same with the count of inputs, which making asks for. FORMAT 10.1, 10.2, 10.3, 13.1
#[tactic(auto, using(crate::proofs::Whole::too_long))]
pub fn survey(list: &[u8]) -> Result<Surveyed, Refused>
    ensures yields { survey_meaning result ≡ survey_of (reading list.now) }
    ensures prime { PrimeFound result }
{
    if 65536 < list.len() {
        return Err(Refusal::TextTooLong.at(0));
    }
    let Some(text) = Text::of(list) else {
        return Err(Refusal::TextNotEnded.at(0));
    };
    let mut numbers = [0; MOST_NUMBERS];
    let Some(line) = line_of(text, 0, &mut numbers) else {
        return Err(Refusal::NoLine.at(0));
    };
    let parsed = Parsed {
        word: line.word,
        numbers: &numbers[..line.count],
    };
    let p = first_parsed(parsed).map_err(|refusal| refusal.at(0))?;
    survey_from(text, line.next, p, &mut numbers)
}

// The lines after line 0, from the place where line 1 starts.
fn survey_from(
    text: Text,
    start: usize,
    p: u32,
    numbers: &mut [i64; MOST_NUMBERS],
) -> Result<Surveyed, Refused>
    requires { (1 ≤ start) × (start ≤ length text.bytes.now) × OddPrime p × (p ≤ greatest) }
    ensures yields { survey_meaning result ≡ survey_of (read_from plain 1 (only p) (lines_from text.entry.bytes.now start)) }
    ensures prime { PrimeFound result }
{
    let mut state = State::over(p);
    let mut at = start;
    let mut n: usize = 1;
    // By place, and no iterator: a line's numbers are in the one array that each line fills anew, which an iterator's items cannot lend (fixed memory);
    // as `Walk` of `service`.
    while at < text.bytes.len() {
        let Some(line) = line_of(text, at, numbers) else {
            return Err(Refusal::NoLine.at(n));
        };
        let parsed = Parsed {
            word: line.word,
            numbers: &numbers[..line.count],
        };
        state.step(parsed).map_err(|refusal| refusal.at(n))?;
        at = line.next;
        n += 1;
    }
    Ok(Surveyed {
        p,
        counts: state.counts,
    })
}
