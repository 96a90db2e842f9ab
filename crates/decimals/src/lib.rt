// Numbers in decimal, read from a field; specs/Number.antt says too how they are written (crate text_out).
// A reader takes a part of a text, of any content and length. Its contract says its whole answer by a definition of specs/.
#![tactic(auto)]

mod number;

pub use number::{read_constant, read_natural};
