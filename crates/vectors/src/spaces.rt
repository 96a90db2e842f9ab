// The spaces of the vector programs: for a whole input, or for each part of a case. model/README.md has the sizes.
ghost use Rattle.std.specs.Prelude.{◌≡◌, replicate};

// For all cases of an input.
pub const CASES: usize = 300000;

// For a guide, a listing or a plate.
pub const INPUT: usize = 327681;

pub const BOOK: usize = 20000;

pub const ANSWERS: usize = 1536;

// For numbers of scratch.
pub const SCRATCH: usize = 600;

// For the longest transcript.
pub const LENT: usize = 918016;

// For a lent output; all zeros. An array of this length is made in a function of its own, so that a proof about what is done with it does
// not go over its elements.
pub fn lent_space() -> [u8; LENT]
    ensures { result ≡ replicate 918016 0 }
{
    [0; LENT]
}
