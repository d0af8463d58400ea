// The three kinds of number in code, each a type of its own, and their arithmetic on machine words: a remainder (`Residue`), a whole number (`Whole`)
// and the number of a cell (`Cell`). Lent memory holds plain numbers: remainders and whole numbers are wrapped where they are read out of it, and
// taken out where they are written to it, both here; the numbers of cells are by `From`, where they are read and written. A remainder is
// not the whole number that it stands for: the one way from the first to the second is the signed reading, `signed_value`. Beside them stand the
// inverse, the capped power and the square root. Each function is proved equal to its definition, in meaning, algebra, std or `specs` here; of
// `natural` that holds from zero on.
#![tactic(auto)]

pub mod cell;
pub mod inverse;
pub mod power;
pub mod residue;
pub mod root;
pub mod whole;

pub use cell::Cell;
pub use residue::Residue;
pub use whole::Whole;
