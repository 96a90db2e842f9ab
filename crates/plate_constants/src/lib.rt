// Constants of a plate, and the R, OP and C of an if, read at a bit.
// Every function takes any bits and reads from any bit on. Its contract is written as those of crate fields are.
#![tactic(auto)]

mod constant;
mod tests;

pub use constant::{long_constant, short_constant};
pub use tests::{op_of, read_test};
