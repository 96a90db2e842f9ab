// The room that a plate takes in a lent buffer.
ghost use Rattle.std.specs.Prelude.{◌≡◌};
ghost use Rattle.plate_room.specs.Plates.{plate_room, room_answer};

use causes::limits::PLATE_BYTES;
use causes::{Cause, Refusal};

// A plate of so many bits, the filling counted, in a lent buffer of so many bytes: 10 over 2,953 bytes, then 11 where the buffer is shorter.
pub fn plate_room(bits: usize, lent: usize) -> Result<usize, Refusal>
    ensures { result ≡ room_answer (plate_room bits lent) }
{
    let length = bits / 8;
    if length > PLATE_BYTES {
        return Err(Refusal {
            cause: Cause::PlateTooLong,
            place: 0,
        });
    }
    if length > lent {
        return Err(Refusal {
            cause: Cause::TooShort,
            place: 0,
        });
    }
    Ok(length)
}
