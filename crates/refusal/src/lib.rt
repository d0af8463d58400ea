// Why a list, a table, a column of inputs or a buffer is refused, and the number of each refusal by the format. A public call that
// can be refused answers with a `Result` whose error is one of these with its place; the number is asked for only where an answer leaves the product.
#![tactic(auto)]

mod refused;

pub use refused::{Refusal, Refused};
