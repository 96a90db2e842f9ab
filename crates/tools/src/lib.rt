// What the tools share: input files, answers from the arguments, and what is told and printed.
// A file is named by an argument; `-` is standard input. What cannot be read is told on standard error, in one line, and nothing is
// printed. No contract can say what is read; what is read has room in the lent space.
#![tactic(auto)]

mod answers;
mod calls;
mod files;
mod reading;
mod spaces;
mod telling;

pub use answers::{argument_count, read_answers};
pub use calls::{with_answers, with_book};
pub use files::{read_file, read_plate};
pub use reading::read_full;
pub use spaces::transcript_space;

// How many bytes of a book are enough. A good book has at most 256 lines of 65 bytes, 16,640. Of a longer one the first bad line starts
// behind at most 256 good ones, so that it has a byte within the first 16,641: it stands there whole, and is as bad, or it is cut off,
// and is bad as a last line without LF.
pub const BOOK: usize = 16641;

// How many bytes of a guide, of a listing and of a plate are enough: one more than each may have, which is refused as any longer one.
pub const GUIDE: usize = 16385;

pub const LISTING: usize = 327681;

pub const PLATE: usize = 2954;

// How many answers are enough: no walk or run takes more, three for each of 512 inputs.
pub const ANSWERS: usize = 1536;
