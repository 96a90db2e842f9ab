// The walk of a block, from line to line of the guide's text.
// specs/Descend.antt says the walk over the lines as the code goes: `block` and `statement` call each other, and a block that is not walked is
// passed over. `block` answers what specs/Leaves.antt says: how the block is left, with the transcript in the lent buffer, and where the lines go
// on. The guide has been checked, so no line is a fault; a line is at most three steps.
#![tactic(auto)]

mod blocks;
mod leave;
mod perform;

pub use blocks::block;
use transcript::Performed;

// What a block leaves: the machine, the outcome and the transcript's end, and the place of the lines behind it.
#[derive(Clone, Copy)]
pub struct Walked {
    pub left: Performed,
    pub place: usize,
}
