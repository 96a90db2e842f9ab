// A plate that was made in an array, in a lent buffer.
ghost use Rattle.std.specs.Prelude.{◌≡◌};
ghost use Rattle.causes.specs.Answers.{written_answer};
ghost use Rattle.bits.specs.Bits.{bytes_bits};
ghost use Rattle.plate_room.specs.Plates.{lent_bits};

use crate::sizes::plate_room;
use causes::Written;
use causes::limits::PLATE_BYTES;

// A plate of so many bits, which an array of the longest plate's length holds as far as it goes: 10, 11, or the plate is copied to the
// front of the lent buffer.
pub fn lend(array: &[u8; PLATE_BYTES], bits: usize, plate: &mut [u8]) -> Written
    ensures { (written_answer result, plate.new) ≡ lent_bits (bytes_bits array.now) bits plate.old }
{
    let length = plate_room(bits, plate.len())?;
    plate[..length].copy_from_slice(&array[..length]);
    Ok(length)
}
