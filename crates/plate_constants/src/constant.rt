// Constants of a plate, in two's complement: 16 bits, or 32 where 16 are not enough.
ghost use Rattle.std.specs.Prelude.{◌≡◌, ◌≤◌, ◌<◌, length};
ghost use Rattle.causes.specs.Limits.{most_plate_bytes};
ghost use Rattle.plate.specs.Reading.{number};
ghost use Rattle.plate.specs.Plate.{signed, constant, short, constant_by};
ghost use Rattle.fields.specs.Places.{place_at, field_read};

use causes::{Cause, Refusal};
use fields::{Field, read_field, read_plain};
use plate::is_short;

// The number whose two's complement of 16 bits is the value, by arithmetic and without a test: 32768 more, the remainder by
// 65536, 32768 less.
pub fn short_constant(value: usize) -> i32
    requires { value < 65536 }
    ensures { result ≡ signed 16 value }
{
    ((value + 32768) % 65536) as i32 - 32768
}

// The number whose two's complement of 32 bits is the value.
pub fn long_constant(value: usize) -> i32
    requires { value < 4294967296 }
    ensures { result ≡ signed 32 value }
{
    (value as u32).cast_signed()
}

// A constant of 16 bits.
fn read_short(plate: &[u8], at: usize) -> Result<Field<i32>, Refusal>
    requires { length plate.now ≤ most_plate_bytes }
    ensures { field_read plate.now result ≡ short (place_at plate.now at) }
{
    let Field { value, next } = read_plain(plate, at, 16)?;
    Ok(Field {
        value: short_constant(value),
        next,
    })
}

// A number of 32 bits, read in two halves: each lies in four bytes, which are one load.
fn read_halves(plate: &[u8], at: usize) -> Result<Field<usize>, Refusal>
    requires { length plate.now ≤ most_plate_bytes }
    ensures { field_read plate.now result ≡ number 32 (place_at plate.now at) }
{
    let ends = Refusal {
        cause: Cause::PlateEnds,
        place: at,
    };
    let Some(high) = bits_in::read_number(plate, at, 16) else {
        return Err(ends);
    };
    let Some(low) = bits_in::read_number(plate, at + 16, 16) else {
        return Err(ends);
    };
    Ok(Field {
        value: high as usize * 65536 + low as usize,
        next: at + 32,
    })
}

// A constant of 32 bits, for which 16 are not enough.
fn read_long(plate: &[u8], at: usize) -> Result<Field<i32>, Refusal>
    requires { length plate.now ≤ most_plate_bytes }
    ensures { field_read plate.now result ≡ constant_by 1 (place_at plate.now at) }
{
    let Field { value, next } = read_halves(plate, at)?;
    let constant = long_constant(value);
    if is_short(constant) {
        return Err(Refusal {
            cause: Cause::Spelling,
            place: at,
        });
    }
    Ok(Field {
        value: constant,
        next,
    })
}

// A constant: its code, and as many bits as that says.
pub fn read_constant(plate: &[u8], at: usize) -> Result<Field<i32>, Refusal>
    requires { length plate.now ≤ most_plate_bytes }
    ensures { field_read plate.now result ≡ constant (place_at plate.now at) }
{
    let Field { value: code, next } = read_field(plate, at, 2, 1, Cause::Unused)?;
    if code == 0 {
        read_short(plate, next)
    } else {
        read_long(plate, next)
    }
}
