// The bits of texts, for the writer of a plate's instructions (crate writer) and that of its front (crate plate_room).
// Each writer stores its bits from the bit `at` of the lent buffer on, as far as the buffer goes, changes no other bit, and returns the
// place behind its bits, with room or without: a pass over no buffer at all counts the bits. Its contract says which bits these are, by
// crate plate's specs/Writing.antt, for a buffer of at most 2,953 bytes, the longest plate.
// The phrases that a text is looked up among are `known`.
#![tactic(auto)]

mod texts;

pub use texts::{put_spelled, put_text, put_texts};
