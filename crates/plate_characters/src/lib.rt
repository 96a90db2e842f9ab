// The characters of a plate, read from a bit on up to ETX: judged and counted, or copied into a buffer, or both.
// Every function takes any bits and reads from any bit on. Its contract is written as those of crate fields are.
#![tactic(auto)]

mod copying;
mod gathering;
mod spelling;

pub use copying::{copy_characters, copy_each};
pub use gathering::gather;
pub use spelling::{last_size, read_size};
