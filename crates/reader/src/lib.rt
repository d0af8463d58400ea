// Reads a list: what is known, line by line, and the refusals in their order. Others read a list by `read` or by `survey`. A walk over a list
// that was read counts its lines: it starts with no counts, and adds what each line has (`line_size`). Who has lines that
// are no text reads them by the same steps, `first_parsed` and `State::step`.
#![tactic(auto)]

mod counts;
mod first;
mod line;
mod reading;
mod size;
mod state;

pub use counts::Counts;
pub use first::first_parsed;
pub use line::Parsed;
pub use reading::{Summary, Surveyed, read, survey};
pub use size::line_size;
pub use state::State;
