// Parts of a text, which are lines or fields: how many there are, where one starts, and one by its number; whether two are the same.
// Every function takes any content of any length, and its contract says its whole answer by a definition: specs/Parts.antt of crate text.
// `part` returns a part of the text, never a copy.
#![tactic(auto)]

mod parts;

pub use parts::{count_parts, part, part_start, same};
