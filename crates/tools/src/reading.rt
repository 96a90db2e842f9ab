// Reading into a space.
ghost use Rattle.std.specs.Prelude.{◌≤◌, length, IfOk};

use std::io;
use std::io::Read;

// Reads until the space is full or the input ends, and answers how many bytes were read.
pub fn read_full<R: Read>(from: &mut R, space: &mut [u8]) -> io::Result<usize>
    ensures { IfOk result (λ n. n ≤ length space.new) }
{
    let mut done = 0;
    while done < space.len() {
        match from.read(&mut space[done..])? {
            0 => break,
            more => done += more,
        }
    }
    Ok(done)
}
