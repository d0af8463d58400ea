// The rules of each kind of line, and the ends of the value that a line of the kind makes. A function here takes a line's numbers and what is
// known before it, and changes nothing: taking in the line is for reading. Each kind's reading is two lines, which begin the line by its layout
// and take its own rule, and a clause by its own definition. One function of them all would take the layout as numbers and the rule as a
// closure whose promise is that definition again. The clause is whole in each, as it says what the kind's reading means. How many numbers a
// kind has is its clause too: `Parsed` of reader keeps it for all kinds, and gives the slice. What begins a line gives its digits; what is
// known before it does not change with them, so that the two stay two parameters.
#![tactic(auto)]

mod base;
mod ends;
mod input;
mod known;
mod max;
mod relu;
mod root;
mod span;
mod sum;
mod which;

pub use ends::Ends;
pub use input::read_input;
pub use known::Known;
pub use max::read_max;
pub use relu::read_relu;
pub use root::read_root;
pub use span::read_span;
pub use sum::read_sum;
pub use which::read_which;
