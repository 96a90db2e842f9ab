// The whole plate, read before anything is made of it: its own phrases, its instruction count, its instructions and the filling, with
// causes 10, 12, 13, 14, 8 and 15 at the exact bit.
// specs/Holding.antt says which program a plate's contents are. The own phrases are written once, as lines `phrase,TEXT`, into a buffer
// that the caller lends, and each gets its number behind the index of the book; instructions stay where they are, and are read again one by
// one.
#![tactic(auto)]

mod filling;
mod own;
mod passing;
mod whole;

pub use own::has_own;
pub use whole::read_contents;

// Room for the lines of a plate's own phrases, of which there are at most 32 of at most 72 bytes.
pub const OWN_BYTES: usize = 2304;

// What a plate holds: how many own phrases and instructions, the bit of the first instruction, and the room that the lines of the
// instructions take at most in a listing.
#[derive(Clone, Copy, Debug, PartialEq, Eq)]
pub struct Contents {
    pub own: usize,
    pub instructions: usize,
    pub bit: usize,
    pub room: usize,
}
