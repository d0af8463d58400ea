// The words by their codes, as lists are given without a text. FORMAT 3.1, 9.24
use super::Word;

// A code that no word has.
#[derive(Clone, Copy, PartialEq, Eq)]
pub struct UnknownCode(pub u8);

impl TryFrom<u8> for Word {
    ghost use Rattle.text.specs.Code.{Decodes};

    type Error = UnknownCode;

    ghost try_from_gives = { Decodes };

    #[tactic(auto, using(crate::proofs::Codes::past_words), unfolding(meaning::specs::Write::word_with, meaning::specs::Write::element_at, meaning::specs::Word::words, crate::specs::Word::word_of))]
    fn try_from(code: u8) -> Result<Word, UnknownCode> {
        match code {
            0 => Ok(Word::Field),
            1 => Ok(Word::In),
            2 => Ok(Word::Span),
            3 => Ok(Word::Sum),
            4 => Ok(Word::Relu),
            5 => Ok(Word::Which),
            6 => Ok(Word::Max),
            7 => Ok(Word::Root),
            _ => Err(UnknownCode(code)),
        }
    }
}
