// Numbers of a plate: read, judged, and refused at their first bit.
ghost use Rattle.std.specs.Prelude.{◌≡◌, ◌+◌, ◌≤◌, ◌<◌, length, leb};
ghost use Rattle.causes.specs.Limits.{most_plate_bytes};
ghost use Rattle.bits.specs.Ahead.{ahead_in};
ghost use Rattle.plate.specs.Reading.{number, judged};
ghost use Rattle.plate.specs.Plate as reader;
ghost use Rattle.fields.specs.Places.{place_at, field_read};

use crate::Field;
use causes::{Cause, Refusal};

// A number of so many bits.
pub fn read_plain(plate: &[u8], at: usize, width: usize) -> Result<Field<usize>, Refusal>
    requires { (width ≤ 32) × (length plate.now ≤ most_plate_bytes) }
    ensures { field_read plate.now result ≡ number width (place_at plate.now at) }
{
    let Some(value) = bits_in::read_number(plate, at, width) else {
        return Err(Refusal {
            cause: Cause::PlateEnds,
            place: at,
        });
    };
    Ok(Field {
        value: value as usize,
        next: at + width,
    })
}

// The same of a number that begins k bits behind a bit whose 25 bits were read ahead.
pub fn plain_ahead(
    plate: &[u8],
    ahead: usize,
    at: usize,
    k: usize,
    width: usize,
) -> Result<Field<usize>, Refusal>
    requires { (ahead ≡ ahead_in plate.now at) × (k + width ≤ 25) × (at + k < 18446744073709551616) × (length plate.now ≤ most_plate_bytes) }
    ensures { field_read plate.now result ≡ number width (place_at plate.now (at + k)) }
{
    let place = at + k;
    let Some(value) = bits_ahead::number_ahead(plate, ahead, at, k, width) else {
        return Err(Refusal {
            cause: Cause::PlateEnds,
            place,
        });
    };
    Ok(Field {
        value: value as usize,
        next: place + width,
    })
}

// A number of so many bits; the cause where it is over the most.
pub fn read_field(
    plate: &[u8],
    at: usize,
    width: usize,
    most: usize,
    cause: Cause,
) -> Result<Field<usize>, Refusal>
    requires { (width ≤ 32) × (length plate.now ≤ most_plate_bytes) }
    ensures { field_read plate.now result ≡ judged (number width) (λ v. leb v most) cause (place_at plate.now at) }
{
    let field = read_plain(plate, at, width)?;
    if most < field.value {
        return Err(Refusal { cause, place: at });
    }
    Ok(field)
}

// A skip, over at most so many instructions.
pub fn read_skip(plate: &[u8], at: usize, behind: usize) -> Result<Field<usize>, Refusal>
    requires { length plate.now ≤ most_plate_bytes }
    ensures { field_read plate.now result ≡ reader.skip behind (place_at plate.now at) }
{
    read_field(plate, at, 9, behind, Cause::Skip)
}
