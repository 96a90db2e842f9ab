// The cases of the five calls, read from a reader one by one into spaces that hold the longest. model/README.md has the format and
// the sizes.
// A program has a space for each part of a case, reads a case into them, makes its call on the parts that the case has, and writes
// the line. What does not fit its space, or stands past the input's end, is left out, and the lines then differ.
// In vectors_call the number of the call stands before a case, in vectors_agree nothing. Behind the book stand the answers of a walk, and
// the answers and the scratch length of a run.
// Last, the steps through an input that is read whole (src/input.rt reads its numbers and slices): a caller's closure makes them, so that
// little can be promised of them too.
ghost use Rattle.std.specs.Prelude.{◌≡◌, ◌^◌, ◌<◌, length, Ok, IfSome};
ghost use Rattle.vectors.specs.Front.{Front, Fronts};

use crate::buffer::{fill, lent};
use crate::reading::read_full;
use std::io;
use std::io::Read;

// More cases than any input of a vector program has.
const MOST_CASES: usize = 1000000;

// What every case has: the lengths of its lent output, of its guide, listing or plate, and of its book.
#[derive(Clone, Copy, Debug, PartialEq, Eq)]
pub struct Case {
    pub lent: usize,
    pub input: usize,
    pub book: usize,
}

// The number of the next four bytes, the lowest first; none where the input ends.
pub fn read_number<R: Read>(from: &mut R) -> Option<usize>
    ensures { IfSome result (λ n. n < 2 ^ 32) }
{
    let mut bytes = [0; 4];
    if read_full(from, &mut bytes) < 4 {
        return None;
    }
    Some(u32::from_le_bytes(bytes) as usize)
}

// How many elements of a space the next number asks for, at most all; 0 at the end.
fn read_lent<R: Read, T>(from: &mut R, space: &[T]) -> usize
    ensures { Front result space.now }
{
    lent(space, read_number(from).unwrap_or(0))
}

// The next slice, behind its length: its bytes at the front of `space`, and how many they are.
fn read_slice<R: Read>(from: &mut R, space: &mut [u8]) -> usize
    ensures { Front result space.new }
{
    let length = read_lent(from, space);
    read_full(from, &mut space[..length])
}

// The next case up to its book, each part at the front of its space. The lent output has the content that it has before a call.
pub fn read_case<R: Read>(
    from: &mut R,
    input: &mut [u8],
    book: &mut [u8],
    out: &mut [u8],
) -> Option<Case>
    ensures { IfSome result (λ c. Fronts c input.new book.new out.new) }
{
    let lent = lent(out, read_number(from)?);
    fill(&mut out[..lent]);
    Some(Case {
        lent,
        input: read_slice(from, input),
        book: read_slice(from, book),
    })
}

// The answers of a case, behind their count, at the front of `space`; and how many they are.
pub fn read_answers<R: Read>(from: &mut R, space: &mut [i32]) -> usize
    ensures { Front result space.new }
{
    let count = read_lent(from, space);
    for answer in space[..count].iter_mut() {
        let mut bytes = [0; 4];
        read_full(from, &mut bytes);
        *answer = i32::from_le_bytes(bytes);
    }
    count
}

// How many numbers of scratch a case lends, at most all of `space`.
pub fn read_scratch<R: Read>(from: &mut R, space: &[u16]) -> usize
    ensures { Front result space.now }
{
    read_lent(from, space)
}

// All cases: `case` is lent the spaces of a guide, listing or plate, a book, answers and an output, and answers whether there was one more.
pub fn each_case<F: FnMut(&mut [u8], &mut [u8], &mut [i32], &mut [u8]) -> io::Result<bool>>(
    input: &mut [u8],
    book: &mut [u8],
    answers: &mut [i32],
    out: &mut [u8],
    mut case: F,
) -> io::Result<()>
    requires { F.IsAlwaysCallable case }
    ensures input_kept { length input.new ≡ length input.old }
    ensures book_kept { length book.new ≡ length book.old }
    ensures answers_kept { length answers.new ≡ length answers.old }
    ensures out_kept { length out.new ≡ length out.old }
{
    for _ in 0..MOST_CASES {
        if !case(input, book, answers, out)? {
            break;
        }
    }
    Ok(())
}

// Steps through the input from its front: a step is given a place, and answers the place behind what it took. The last one comes to the
// input's end, or does not go on.
pub fn each_place<F: FnMut(usize) -> io::Result<usize>>(s: &[u8], mut step: F) -> io::Result<()>
    requires { F.IsAlwaysCallable step }
    ensures { length s.now ≡ 0 → result ≡ Ok tt }
{
    let mut at = 0;
    while at < s.len() {
        let next = step(at)?;
        if next <= at {
            break;
        }
        at = next;
    }
    Ok(())
}
