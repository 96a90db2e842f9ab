// Reading into a space.
ghost use Rattle.vectors.specs.Front.{Front};

use std::io::Read;

// Reads until the space is full, the input ends or a read fails, and answers how many bytes stand at its front.
pub fn read_full<R: Read>(from: &mut R, space: &mut [u8]) -> usize
    ensures { Front result space.new }
{
    let mut done = 0;
    while done < space.len() {
        match from.read(&mut space[done..]) {
            Ok(0) | Err(_) => break,
            Ok(more) => done += more,
        }
    }
    done
}
