// What the programs print of a result. specs/Lines.antt says the lines, specs/Pairs.antt bytes as pairs of hexadecimal digits.
// A writer stores as far as the buffer goes, from a place on, and answers where its writing ends (crate output).
#![tactic(auto)]

mod lines;
mod pairs;
mod parts;

pub use lines::{put_labelled, put_plate, put_refused, put_report};
pub use pairs::put_pairs;
pub use parts::front;
