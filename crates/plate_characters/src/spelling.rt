// The characters of a plate: of 7 or 8 bits each, up to ETX.
ghost use Rattle.std.specs.Prelude.{◌≡◌, ◌||◌, ◌≤◌, ◌<◌, length, eqb};
ghost use Rattle.causes.specs.Limits.{most_plate_bytes};
ghost use Rattle.text.specs.Text.{text_byte};
ghost use Rattle.plate.specs.Writing.{ETX};
ghost use Rattle.plate.specs.Plate.{character};
ghost use Rattle.fields.specs.Places.{place_at, field_read, size_read, until_etx};

use causes::{Cause, Refusal};
use fields::{Field, read_plain};

// Whether a number is a byte of a text.
fn is_text_byte(code: usize) -> bool
    ensures { result ≡ text_byte code }
{
    match code {
        0..=31 | 44 | 127 => false,
        _ => true,
    }
}

// Whether a number is ETX or a byte of a text.
pub fn is_character(code: usize) -> bool
    ensures { result ≡ (eqb code ETX || text_byte code) }
{
    code == 3 || is_text_byte(code)
}

// A character of so many bits, or ETX.
pub fn read_character(plate: &[u8], at: usize, width: usize) -> Result<Field<usize>, Refusal>
    requires { (width ≤ 8) × (length plate.now ≤ most_plate_bytes) }
    ensures { field_read plate.now result ≡ character width (place_at plate.now at) }
{
    let field = read_plain(plate, at, width)?;
    if is_character(field.value) {
        Ok(field)
    } else {
        Err(Refusal {
            cause: Cause::Spelling,
            place: at,
        })
    }
}

// How many characters of so many bits stand before ETX, and the bit behind it: one by one.
pub fn last_size(plate: &[u8], at: usize, width: usize) -> Result<Field<usize>, Refusal>
    requires { (0 < width) × (width ≤ 8) × (length plate.now ≤ most_plate_bytes) }
    ensures { size_read width plate.now at result ≡ until_etx width (place_at plate.now at) }
{
    let mut size = 0;
    let mut bit = at;
    loop {
        let Field { value: code, next } = read_character(plate, bit, width)?;
        if code == 3 {
            return Ok(Field { value: size, next });
        }
        size += 1;
        bit = next;
    }
}

// The same of 7 bits, eight characters read at once; one by one where fewer than eight bytes are left.
#[inline(always)]
pub fn read_size(plate: &[u8], at: usize) -> Result<Field<usize>, Refusal>
    requires { length plate.now ≤ most_plate_bytes }
    ensures { size_read 7 plate.now at result ≡ until_etx 7 (place_at plate.now at) }
{
    let mut size = 0;
    let mut bit = at;
    loop {
        let Some(eight) = bits_in::read_eight(plate, bit) else {
            let Field { value: more, next } = last_size(plate, bit, 7)?;
            return Ok(Field {
                value: size + more,
                next,
            });
        };
        let mut left = eight;
        for _ in 0..8usize {
            let code = left >> 49;
            if code == 3 {
                return Ok(Field {
                    value: size,
                    next: bit + 7,
                });
            }
            if !is_text_byte(code) {
                return Err(Refusal {
                    cause: Cause::Spelling,
                    place: bit,
                });
            }
            size += 1;
            bit += 7;
            left = left % (1 << 49) * 128;
        }
    }
}
