// The table of a list, line by line: working the line over whole numbers, the cells that it writes, and the check of its rows. `line_works`,
// `line_cells` and `line_rows` take a line of a list that was read, whose numbers keep the rules: by its word they read what it names and its
// digits. One file for each kind of line that has something to do with them; what kinds share is crate `groups`.
//
// Each of the three reads a kind's layout for itself: one reading for all would be an enum of the kinds with values or with cells, and a match over it
// in each again. A word and its numbers stay two parameters: a struct would be made for each call and taken apart by the match at once. The part and p
// stay two parameters, as in `groups`.
#![tactic(auto)]

pub mod line_cells;
pub mod line_rows;
pub mod line_works;
mod max;
mod relu;
mod root;
mod span;
mod sum;
mod value;
mod which;
