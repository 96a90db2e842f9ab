// The texts of a plate, read at a bit: spelled out in characters of 7 or 8 bits, or a phrase.
// Every function takes any bits and reads from any bit on. Its contract says that its answer stands, by a map of specs/TextsAt.antt, for
// what a reader of crate plate's specs/Plate.antt finds there.
// Asked of a caller: a plate of at most 2,953 bytes, and a `Lookup` of the book's and the own phrases.
// A text that is read first is judged, and answers its size and its end; one that was read before is copied into a lent buffer.
#![tactic(auto)]

mod accented_text;
mod copying;
mod phrase_place;
mod spelled_text;
mod text_at;

pub use copying::{copy_options, copy_text};
pub use spelled_text::read_spelled;
pub use text_at::{pass_text, pass_texts};

// Options that were copied from a plate into a buffer: how many, where they end in the buffer, and the bit behind them on the plate.
#[derive(Clone, Copy, Debug, PartialEq, Eq)]
pub struct Offered {
    pub options: usize,
    pub end: usize,
    pub next: usize,
}
