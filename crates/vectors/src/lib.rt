// What the programs that run the model's vectors share: spaces, numbers and slices of the input, lent buffers, the lines of the calls'
// answers, and the cases of the calls, read. model/README.md has the format.
#![tactic(auto)]

mod buffer;
mod cases;
mod input;
mod lines;
mod reading;
mod spaces;

pub use buffer::{fill, lent, put_buffer};
pub use cases::{Case, each_case, each_place, read_answers, read_case, read_number, read_scratch};
pub use input::{byte, long_number, number, past_slice, signed, slice};
pub use lines::{print_line, put_ran, put_written};
pub use reading::read_full;
pub use spaces::{ANSWERS, BOOK, CASES, INPUT, SCRATCH, lent_space};
