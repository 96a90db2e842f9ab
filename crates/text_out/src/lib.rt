// Bytes, texts and numbers in decimal, written into a lent buffer.
// A writer stores as far as the buffer goes, and answers where its writing ends (crate output). Its contract says its answer and the whole
// buffer afterwards by a definition.
#![tactic(auto)]

mod write;

pub use write::{put, put_byte, put_natural, put_number};
