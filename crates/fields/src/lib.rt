// The fields of a plate, read at a bit: the answers of all that read them, and numbers. Constants and characters are crates of their own.
// Every function takes any bits and reads from any bit on. Its contract says that its answer stands, by a map of specs/Places.antt, for
// what a reader of crate plate's specs/Plate.antt finds there: the value, the bit behind it, and in a refusal the cause and its bit.
// Asked of a caller: a plate of at most 2,953 bytes.
#![tactic(auto)]

mod numbers;

pub use numbers::{plain_ahead, read_field, read_plain, read_skip};

// A value that was read at a bit of the plate, and the bit behind it.
#[derive(Clone, Copy, Debug, PartialEq, Eq)]
pub struct Field<T> {
    pub value: T,
    pub next: usize,
}

// What was copied from a plate into a buffer: where its bytes end in the buffer, and the bit behind it on the plate.
#[derive(Clone, Copy, Debug, PartialEq, Eq)]
pub struct Copied {
    pub end: usize,
    pub next: usize,
}
