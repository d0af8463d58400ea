// Reads the lines of the text format: a line's word and numbers, or the number that it is, each as its definition in `meaning` says, for every byte
// string. The fields of a line are numbers and words, which `text` reads.
#![tactic(auto)]

ghost use Rattle.std.specs.Prelude.{◌≡◌, ◌+◌, ◌<◌, length};
ghost use Rattle.meaning.specs.Machine.{past_u64};
ghost use Rattle.text.specs.Number.{WholeYield};
ghost use Rattle.text.specs.Place.{up_to, line_at, fields_from};
ghost use Rattle.lines.specs.Parsed.{LineRead, NextAfter, NumbersYield, WordedAs, FieldsYield, Stored, leading_numbers, leading};

use text::{Field, MOST_NUMBERS, Text, Word, is_count, number_at, word_at};

const TAB: u8 = b'\t';

// The fields of a line, and where the next line starts: a word and how many numbers it has; or how many numbers there are alone, and 0 where they follow a
// word that they do not belong to. (One struct with `Line`, generic in the word, would save three lines, and each use would name its word's type.)
#[derive(Clone, Copy)]
struct Fields {
    word: Option<Word>,
    count: usize,
    next: usize,
}

// A line's word, how many of the numbers in the lent array are its own, and where the next line starts. A count and no slice: the array is the caller's
// (fixed memory), and is lent on to the next line.
#[derive(Clone, Copy)]
pub struct Line {
    pub word: Word,
    pub count: usize,
    pub next: usize,
}

// How many numbers the fields from the one at `from` up to the line's end spell, and where that is: they are then the first in `numbers`. Where
// they spell none, or are more than a line can have, `numbers` begins with those that were read before that was seen.
fn numbers_from(text: Text, from: usize, numbers: &mut [i64; MOST_NUMBERS]) -> Option<Field<usize>>
    requires { from < length text.bytes.now }
    ensures yields { NumbersYield (up_to text.entry.bytes.now from) from numbers.new result }
    ensures left { Stored (leading_numbers (fields_from (up_to text.entry.bytes.now from) from)) numbers.old numbers.new }
{
    let mut at = from;
    for count in 0..MOST_NUMBERS {
        // Taken apart by let .. else, a required form of the project (docs/DECISIONS.md).
        let Some(number) = number_at(text, at) else {
            return None;
        };
        numbers[count] = number.value;
        let end = number.end;
        if text.bytes[end] != TAB {
            return Some(Field {
                value: count + 1,
                end,
            });
        }
        at = end + 1;
    }
    None
}

// A word with so many numbers, where as many belong to it, in a line that ends at `end`. Where they do not, it is no word and no number, and not None: so
// both callers take one struct apart, and find in it neither a line nor a number.
fn worded(word: Word, count: usize, end: usize) -> Fields
    requires { end + 1 < past_u64 }
    ensures { WordedAs word count (end + 1) result }
{
    let next = end + 1;
    if is_count(word, count) {
        return Fields {
            word: Some(word),
            count,
            next,
        };
    }
    Fields {
        word: None,
        count: 0,
        next,
    }
}

// The fields of the line at `at`, whose numbers are then the first in `numbers`. Lines and inputs are both read here: as `number_at` and
// `numbers_from` are called at one place alone, the compiler puts all of them into this function, and a line costs one call.
fn fields_of(text: Text, at: usize, numbers: &mut [i64; MOST_NUMBERS]) -> Option<Fields>
    requires { at < length text.bytes.now }
    ensures yields { FieldsYield text.entry.bytes.now at numbers.new result }
    ensures left { Stored (leading (line_at text.entry.bytes.now at)) numbers.old numbers.new }
{
    let spelled = word_at(text, at);
    let mut from = at;
    if let Some(word) = spelled {
        if text.bytes[word.end] != TAB {
            return Some(worded(word.value, 0, word.end));
        }
        from = word.end + 1;
    }
    let read = numbers_from(text, from, numbers)?;
    match spelled {
        Some(word) => Some(worded(word.value, read.value, read.end)),
        None => Some(Fields {
            word: None,
            count: read.value,
            next: read.end + 1,
        }),
    }
}

// The line at `at`: its numbers are then the first in `numbers`. FORMAT 2.7, 10.3
pub fn line_of(text: Text, at: usize, numbers: &mut [i64; MOST_NUMBERS]) -> Option<Line>
    requires { at < length text.bytes.now }
    ensures read { LineRead (line_at text.entry.bytes.now at) numbers.old numbers.new result }
    ensures next { NextAfter text.entry.bytes.now at result }
{
    let fields = fields_of(text, at, numbers)?;
    let word = fields.word?;
    Some(Line {
        word,
        count: fields.count,
        next: fields.next,
    })
}

// The number that the whole line at `at` spells, and the place where the line ends.
#[tactic(auto, using(crate::proofs::LineFields::no_number_there, crate::proofs::LineFields::past_line, crate::proofs::LineFields::word_there, crate::proofs::LineFields::many_there, crate::proofs::LineFields::one_there))]
pub fn number_of(text: Text, at: usize) -> Option<Field<i64>>
    requires { at < length text.bytes.now }
    ensures { WholeYield text.entry.bytes.now at result }
{
    let mut numbers = [0; MOST_NUMBERS];
    let fields = fields_of(text, at, &mut numbers)?;
    if fields.word.is_some() || fields.count != 1 {
        return None;
    }
    Some(Field {
        value: numbers[0],
        end: fields.next - 1,
    })
}
