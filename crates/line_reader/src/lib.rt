// One line of a guide or of a listing, judged.
// `read_line` takes any bytes and answers the line's kind with its numbers, or its cause 3, 4, 5 or, in a guide, 6. Its contract says the whole
// answer by a definition: specs/Line.antt of crate lines says what a line is.
#![tactic(auto)]

mod fields;
mod line;
mod one_text;
mod words;

pub use line::read_line;
