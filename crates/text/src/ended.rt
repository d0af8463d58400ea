// A text as its readers ask it to be. A byte of it that ends no line has another after it, so that no reader goes past its end. The place where a reader
// starts stays a parameter with a clause of its own: each call starts at another one, and a struct of both would be made anew for each.
ghost use Rattle.std.specs.Prelude.{◌≡◌, true};
ghost use Rattle.meaning.specs.Text.{is_ended};

use super::LINE_END;

// Bytes whose last line is ended, as each before it is.
#[derive(Clone, Copy)]
pub struct Text<'a> {
    pub bytes: &'a [u8],
    pub ghost ended: { is_ended bytes.now ≡ true },
}

impl<'a> Text<'a> {
    ghost use Rattle.text.specs.Ended.{EndedYield};

    // The text of these bytes, where their last line is ended. No bytes are no line. FORMAT 2.1
    #[tactic(auto, using(crate::proofs::Places::ended_empty, crate::proofs::Places::ended_last))]
    pub fn of(bytes: &'a [u8]) -> Option<Text<'a>>
        ensures { EndedYield bytes.now result }
    {
        if bytes.is_empty() {
            return None;
        }
        if bytes[bytes.len() - 1] != LINE_END {
            return None;
        }
        Some(Text { bytes })
    }
}
