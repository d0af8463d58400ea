// Reads the numbers and the words of the text format, and finds the places where lines end, each as its definition in `meaning` says, for every byte
// string. Lines are put together of them in `lines`.
//
// A reader answers with what stands in a field and where the field ends, or with None. `specs/` says how each answer is read as a value of the definitions
// or as a refusal's number, and a contract says that it is the definition's. Nothing is read past a slice's end and no sum overflows, however long the
// bytes are.
#![tactic(auto)]

mod code;
mod ended;

ghost use Rattle.std.specs.Prelude.{◌≡◌, true, ◌||◌, ◌≤◌, ◌<◌, eqb, length};
ghost use Rattle.meaning.specs.Word.{kind_of};
ghost use Rattle.text.specs.Number.{SizeRead, NumberYield};
ghost use Rattle.text.specs.Word.{word_of, WordYield, OnlyWord, CountYield};
ghost use Rattle.text.specs.Place.{Found, up_to};

pub use code::UnknownCode;
pub use ended::Text;

// Bytes that end a field, and a line.
const TAB: u8 = b'\t';

const LINE_END: u8 = b'\n';

// The largest size of a number, and the most numbers that a line can have: those of a sum with 16 pairs.
pub const LARGEST: u64 = 2147483647;

pub const MOST_NUMBERS: usize = 33;

// A number with more digits is too large.
const MOST_DIGITS: usize = 10;

// What a field spells, and the place where the field ends.
#[derive(Clone, Copy)]
pub struct Field<T> {
    pub value: T,
    pub end: usize,
}

// Whether a byte ends a field: a tab does, and the end of the line.
fn is_end(byte: u8) -> bool
    ensures { result ≡ (eqb byte 9 || eqb byte 10) }
{
    byte == TAB || byte == LINE_END
}

// ---- numbers

// The size that the field at `at` spells: digits without a leading zero (FORMAT 2.5). The size is held to the limit once, at the end.
fn size_from(text: Text, at: usize) -> Option<Field<u64>>
    requires { at < length text.bytes.now }
    ensures { SizeRead (up_to text.entry.bytes.now at) at result }
{
    let first = text.bytes[at];
    if !(b'1'..=b'9').contains(&first) {
        return None;
    }
    let mut n = u64::from(first - b'0');
    let mut end = at + 1;
    // By index: no byte is held to the text's end, as the line's end, which is no digit, comes before it. A `for` over the places holds each to it, and a
    // text of long numbers takes a fifth longer to read (docs/SPEED.md).
    while text.bytes[end].is_ascii_digit() {
        if MOST_DIGITS <= end - at {
            return None;
        }
        n = 10 * n + u64::from(text.bytes[end] - b'0');
        end += 1;
    }
    (n <= LARGEST && is_end(text.bytes[end])).then_some(Field { value: n, end })
}

// The number that the field at `at` spells. A zero is one where its field ends just after it. One call reads the digits with either sign:
// with two this function is too large for the compiler to put it into the loop over the numbers, and each number pays for a call.
// FORMAT 2.5, 2.6
pub fn number_at(text: Text, at: usize) -> Option<Field<i64>>
    requires { at < length text.bytes.now }
    ensures { NumberYield (up_to text.entry.bytes.now at) at result }
{
    let first = text.bytes[at];
    if first == b'0' {
        let end = at + 1;
        return is_end(text.bytes[end]).then_some(Field { value: 0, end });
    }
    let from = if first == b'-' { at + 1 } else { at };
    let size = size_from(text, from)?;
    let n = size.value as i64;
    Some(Field {
        value: if from == at { n } else { -n },
        end: size.end,
    })
}

// ---- words

#[derive(Clone, Copy, PartialEq, Eq)]
pub enum Word {
    Field,
    In,
    Span,
    Sum,
    Relu,
    Which,
    Max,
    Root,
}

impl Word {
    ghost use Rattle.meaning.specs.Word.{kind_of};
    ghost use Rattle.text.specs.Word.{word_of};

    // How the word is spelled. FORMAT 3.1
    #[tactic(auto, unfolding(meaning::specs::Word::kind_of, meaning::specs::Text::bytes, crate::specs::Word::word_of))]
    pub fn spelling(self) -> &'static [u8]
        ensures { result.now ≡ (kind_of (word_of self)).spelling }
    {
        match self {
            Word::Field => b"field",
            Word::In => b"in",
            Word::Span => b"span",
            Word::Sum => b"sum",
            Word::Relu => b"relu",
            Word::Which => b"which",
            Word::Max => b"max",
            Word::Root => b"root",
        }
    }
}

// The field at `at`, where it spells the only word that it may be. It stands in `word_at` once for each word, so that the compiler compares with the few
// bytes of that word's spelling alone: compared with a spelling that is looked up, a line costs some 40 instructions more, of 150 (docs/SPEED.md).
#[inline(always)]
fn spelled(text: Text, at: usize, word: Word) -> Option<Field<Word>>
    requires { (at < length text.bytes.now) × OnlyWord (up_to text.bytes.now at) at word }
    ensures { WordYield (up_to text.entry.bytes.now at) at result }
{
    let spelling = word.spelling();
    // By index: no byte is held to the text's end, as none that is the spelling's ends a line.
    for i in 0..spelling.len() {
        if text.bytes[at + i] != spelling[i] {
            return None;
        }
    }
    let end = at + spelling.len();
    is_end(text.bytes[end]).then_some(Field { value: word, end })
}

// The word that the field at `at` spells: the first byte, or the first two, tell which one it may be. FORMAT 3.1
#[tactic(auto, using(crate::proofs::Words::second_inside))]
pub fn word_at(text: Text, at: usize) -> Option<Field<Word>>
    requires { at < length text.bytes.now }
    ensures { WordYield (up_to text.entry.bytes.now at) at result }
{
    match text.bytes[at] {
        b'f' => spelled(text, at, Word::Field),
        b'i' => spelled(text, at, Word::In),
        b's' if text.bytes[at + 1] == b'u' => spelled(text, at, Word::Sum),
        b's' => spelled(text, at, Word::Span),
        b'r' if text.bytes[at + 1] == b'e' => spelled(text, at, Word::Relu),
        b'r' => spelled(text, at, Word::Root),
        b'w' => spelled(text, at, Word::Which),
        _ => spelled(text, at, Word::Max),
    }
}

// Whether so many numbers may follow a word. A sum has a constant, and then pairs.
#[tactic(auto, unfolding(meaning::specs::Word::kind_of, crate::specs::Word::word_of))]
pub fn is_count(word: Word, count: usize) -> bool
    ensures { CountYield word count result }
{
    match word {
        Word::Field => count == 1,
        Word::In => count == 0,
        Word::Sum => count % 2 == 1 && count <= MOST_NUMBERS,
        Word::Relu | Word::Root => count == 3,
        Word::Span | Word::Which | Word::Max => count == 4,
    }
}

// ---- lines

// Where the first line end at or after `at` is, or the text's end.
fn next_line_end(text: &[u8], at: usize) -> usize
    requires { at ≤ length text.now }
    ensures { Found 10 text.now at result }
{
    match text[at..].iter().position(|&byte| byte == LINE_END) {
        Some(i) => at + i,
        None => text.len(),
    }
}

// Where the line that starts at `at` ends: the same, four bytes a turn, which takes three fifths of the time. By index: no byte of the four is held to the
// text's end, and the library's search takes one byte a turn.
pub fn line_end(text: &[u8], at: usize) -> usize
    requires { at ≤ length text.now }
    ensures { Found 10 text.now at result }
{
    let mut i = at;
    while 3 < text.len() - i {
        if text[i] == LINE_END {
            return i;
        }
        if text[i + 1] == LINE_END {
            return i + 1;
        }
        if text[i + 2] == LINE_END {
            return i + 2;
        }
        if text[i + 3] == LINE_END {
            return i + 3;
        }
        i += 4;
    }
    next_line_end(text, i)
}
