// The text of given lines, written at the start of a part that has room for it: each line's word, its numbers with a tab before each, and the byte
// that ends the line. FORMAT 2.9
// The room of a part stays a clause: it is of this text. How much was written is answered, as by std's `write`, and a place in the part goes on by it.
ghost use Rattle.std.specs.Prelude.{◌∷◌, ◌≤◌, length};
ghost use Rattle.meaning.specs.Text.{number_text};
ghost use Rattle.meaning.specs.Word.{kind_of};
ghost use Rattle.meaning.specs.Write.{word_text, text_of};
ghost use Rattle.text.specs.Word.{word_of};
ghost use Rattle.output.specs.Written.{Written};
ghost use Rattle.given_lines.specs.Given.{word_meaning, line_text, line_meaning, lines_of};

use super::given::{Given, GivenLine};
use super::short::is_short_negative;
use number::Whole;
use number::whole::{is_below, negated, size_of, whole_at};
use output::{write_bytes, write_decimal, write_number};
use text::Word;

const TAB: u8 = b'\t';

const LINE_END: u8 = b'\n';

const MINUS: u8 = b'-';

const ZERO: u8 = b'0';

// Writes a number, one of two digits by a test of its own (docs/SPEED.md, Writing), where `write_number` has none.
fn write_signed(part: &mut [u8], x: Whole) -> usize
    requires { length (number_text x.0) ≤ length part.old }
    ensures { Written (number_text x.0) part.old part.new result }
{
    if is_short_negative(x) {
        part[0] = MINUS;
        return 1 + write_decimal(&mut part[1..], size_of(negated(x)) as u64);
    }
    if is_below(x, 100) {
        return write_decimal(part, size_of(x) as u64);
    }
    write_number(part, x)
}

// Writes a tab and a number, a single digit at once.
fn write_tabbed(part: &mut [u8], x: Whole) -> usize
    requires { length (9 ∷ number_text x.0) ≤ length part.old }
    ensures { Written (9 ∷ number_text x.0) part.old part.new result }
{
    part[0] = TAB;
    if is_below(x, 10) {
        part[1] = ZERO + size_of(x) as u8;
        return 2;
    }
    1 + write_signed(&mut part[1..], x)
}

// Writes a word that the caller names. It stands in `write_word` once for each word, so that the compiler stores the few bytes of that word: with a spelling
// that is looked up, each line would call C's `memmove`, which the library then asks of who links it.
#[inline(always)]
fn write_spelling(part: &mut [u8], word: Word) -> usize
    requires { length (kind_of (word_of word)).spelling ≤ length part.old }
    ensures { Written (kind_of (word_of word)).spelling part.old part.new result }
{
    write_bytes(part, word.spelling())
}

// Writes a word, and nothing where there is none.
#[tactic(auto, unfolding(meaning::specs::Write::word_text))]
fn write_word(part: &mut [u8], word: Option<Word>) -> usize
    requires { length (word_text (word_meaning word)) ≤ length part.old }
    ensures { Written (word_text (word_meaning word)) part.old part.new result }
{
    match word {
        None => 0,
        Some(Word::Field) => write_spelling(part, Word::Field),
        Some(Word::In) => write_spelling(part, Word::In),
        Some(Word::Span) => write_spelling(part, Word::Span),
        Some(Word::Sum) => write_spelling(part, Word::Sum),
        Some(Word::Relu) => write_spelling(part, Word::Relu),
        Some(Word::Which) => write_spelling(part, Word::Which),
        Some(Word::Max) => write_spelling(part, Word::Max),
        Some(Word::Root) => write_spelling(part, Word::Root),
    }
}

// Writes a line.
fn write_line(part: &mut [u8], line: GivenLine<'_>) -> usize
    requires { length (line_text (line_meaning line)) ≤ length part.old }
    ensures { Written (line_text (line_meaning line.entry)) part.old part.new result }
{
    let mut at = write_word(part, line.word);
    // By index: a whole number is read out of lent memory at its place (`whole_at`), a rule of the project.
    for i in 0..line.numbers.len() {
        at += write_tabbed(&mut part[at..], whole_at(line.numbers, i));
    }
    part[at] = LINE_END;
    at + 1
}

// Writes all lines. FORMAT 9.27
pub fn write_text(part: &mut [u8], given: Given<'_>) -> usize
    requires { length (text_of (lines_of given)) ≤ length part.old }
    ensures { Written (text_of (lines_of given.entry)) part.old part.new result }
{
    let mut written: usize = 0;
    for line in given.lines() {
        written += write_line(&mut part[written..], line);
    }
    written
}
