// The public calls of the product: reading, checking, making and showing, each promised by equations with the definitions of `meaning`.
// Reading is the reader's, offered here beside the others. That a list was read (`ListRead`) stays a clause: its lines and what is known at its end
// are data, which a ghost field holds only as `there are` (`Walk`), and each promise names them.
#![tactic(auto)]

pub mod checking;
pub mod making;
pub mod showing;
mod walk;
mod working;
mod writing;

pub use checking::check;
pub use making::make;
pub use reader::{Summary, read};
pub use showing::show;
