// Lines as they are given, by words and numbers in three rows (`Given`), of which `lines` takes one after another. `line_given` reads one as the reader's
// steps ask for it, and counts the bytes of its text; `text_length` measures the text of all lines, and `write_text` writes it. What the lines mean as a
// list is not asked here.
#![tactic(auto)]

mod given;
mod line;
mod measure;
mod short;
mod writing;

pub use given::{Given, GivenLine, Lines};
pub use line::{Readable, line_given};
pub use measure::{TEXT_LIMIT, text_length};
pub use writing::write_text;
