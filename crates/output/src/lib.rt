// Writing into a lent buffer: what is written at a place, as far as the buffer goes, and where the writing ends.
// Every writer of bytes and of bits goes on past the buffer's end without storing, so that a first pass over no buffer at all
// finds the length of the whole. specs/Pour.antt says what a buffer then holds.
#![tactic(auto)]

ghost use Rattle.std.specs.Prelude.{◌≡◌, ◌+◌, min};
ghost use Rattle.output.specs.Pour.{up_to};

// The sum of two lengths, which stops at the greatest number.
pub fn sum(a: usize, b: usize) -> usize
    ensures { result ≡ up_to (a + b) }
{
    a.saturating_add(b)
}

// The smaller of two numbers: where the unwritten tail of a buffer begins.
pub fn least(a: usize, b: usize) -> usize
    ensures { result ≡ min a b }
{
    a.min(b)
}
