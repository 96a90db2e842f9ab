// The instructions of a plate, read at a bit. The one reader of instructions, for the run and for the converter.
// An instruction that is read first is judged, and answers its room and its end (`pass_instruction`). Of one that was read before, the head is
// read, which says where its texts begin (`accepted_head`), then the fields of an if (`accepted_if`), or the instruction's end
// (`accepted_end`): nothing is judged again. The contracts say it by the readers of crate plate's specs/Plate.antt; specs/Heads.antt
// says which instruction a head begins.
// Asked of a caller: a plate of at most 2,953 bytes, and a `Lookup` of the book's and the own phrases.
#![tactic(auto)]

mod heads;
mod passing;

pub use heads::{accepted_end, accepted_head, accepted_if};
pub use passing::pass_instruction;
use transcript::Test;

// What stands in front of an instruction's texts. A text begins at its bit; the next is the bit behind a goto; an if is told by its bit and
// the 25 bits that were read ahead there.
#[derive(Clone, Copy, Debug, PartialEq, Eq)]
pub enum Head {
    Input { register: usize, text: usize },
    Inputs { register: usize, text: usize },
    Print { text: usize },
    Printex { text: usize },
    Goto { skip: usize, next: usize },
    IfSkip { bit: usize, ahead: usize },
}

// What an if says, and the bit behind it.
#[derive(Clone, Copy, Debug, PartialEq, Eq)]
pub struct IfRead {
    pub test: Test,
    pub skip: usize,
    pub next: usize,
}
