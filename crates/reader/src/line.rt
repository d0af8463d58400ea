// A line as the steps of reading ask for it, wherever it comes from, a text or not.
ghost use Rattle.reader.specs.Line.{ParsedLine};

use text::Word;

// A word with as many numbers as belong to it, each of a size that a number may have.
#[derive(Clone, Copy)]
pub struct Parsed<'a> {
    pub word: Word,
    pub numbers: &'a [i64],
    pub ghost parsed: { ParsedLine word numbers.now },
}
