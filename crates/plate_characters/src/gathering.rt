// The characters of a plate judged, counted and copied into a buffer in one pass, up to ETX.
ghost use Rattle.std.specs.Prelude.{◌≡◌, ◌≤◌, ◌<◌, length};
ghost use Rattle.causes.specs.Limits.{most_plate_bytes};
ghost use Rattle.output.specs.Pour.{pour};
ghost use Rattle.fields.specs.Places.{place_at, size_read, until_etx};
ghost use Rattle.plate_characters.specs.Gathered.{gathered};

use crate::spelling::{is_character, read_character};
use causes::{Cause, Refusal};
use fields::Field;

// How many characters of so many bits stand before ETX, and the bit behind it. Those that were read are in the buffer, as far as it goes.
pub fn gather(
    plate: &[u8],
    at: usize,
    width: usize,
    out: &mut [u8],
) -> Result<Field<usize>, Refusal>
    requires { (0 < width) × (width ≤ 8) × (length plate.now ≤ most_plate_bytes) }
    ensures result_value { size_read width plate.now at result ≡ until_etx width (place_at plate.now at) }
    ensures out_after { out.new ≡ pour 0 (gathered width plate.now at result) out.old }
{
    let mut size = 0;
    let mut bit = at;
    loop {
        if let Some(word) = bits_in::read_eight(plate, bit) {
            let mut left = word;
            let many = 56 / width;
            for _ in 0..many {
                let code = left >> (56 - width);
                if !is_character(code) {
                    return Err(Refusal {
                        cause: Cause::Spelling,
                        place: bit,
                    });
                }
                bit += width;
                if code == 3 {
                    return Ok(Field {
                        value: size,
                        next: bit,
                    });
                }
                size = text_out::put_byte(out, size, code as u8);
                left = left % bits::two_to(56 - width) * bits::two_to(width);
            }
        } else {
            let Field { value: code, next } = read_character(plate, bit, width)?;
            if code == 3 {
                return Ok(Field { value: size, next });
            }
            size = text_out::put_byte(out, size, code as u8);
            bit = next;
        }
    }
}
