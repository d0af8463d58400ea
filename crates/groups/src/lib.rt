// What the kinds of lines share: the numbers of a line, the value that it makes, the rows in order, the digit group, and the sign of relu
// and which.
//
// A function that writes cells is lent the part of the table that starts at the first cell that it writes. It leaves the rest of the part
// as it was. Checking writes nothing: the table is a shared slice.
//
// The part and p stay two parameters: each call lends a further part, so that a struct of the two would be made anew at every call. Nor are the digits in
// it, which both cells and rows take. That p is above 0,
// or an odd prime, stays a clause beside them: `line_cells` is given p as a number, which may be any where the line is a `field`. That a cell lies in
// the table stays one of each function that reads it, as of an index: a `Cell` belongs to no table, and how many more cells must follow differs by kind.
#![tactic(auto)]

pub mod cells;
pub mod digits;
pub mod group;
pub mod numbers;
pub mod rows;
pub mod sign;
pub mod value;
