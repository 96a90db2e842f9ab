// A text that is spelled out with eight bits to a byte: up to ETX, judged as a whole at its first bit.
ghost use Rattle.std.specs.Prelude.{◌≡◌, ◌≤◌, length};
ghost use Rattle.causes.specs.Limits.{most_plate_bytes};
ghost use Rattle.plate.specs.Plate.{spelled, is_accented};
ghost use Rattle.fields.specs.Places.{place_at, size_read};

use crate::spelled_text::{is_new, is_sized};
use causes::{Cause, Refusal};
use fields::Field;
use phrase_lookup::Lookup;
use plate_characters::gather;

// Whether a text is well-formed, not of ASCII alone, and no phrase.
fn is_accented(known: &Lookup, text: &[u8]) -> bool
    ensures { result ≡ is_accented known.now.book known.now.own text.now }
{
    !utf8::is_ascii(text) && utf8::well_formed(text) && is_new(known, text)
}

// The size of the text, and the bit behind its ETX.
pub fn read_accented(plate: &[u8], at: usize, known: &Lookup) -> Result<Field<usize>, Refusal>
    requires { length plate.now ≤ most_plate_bytes }
    ensures { size_read 8 plate.now at result ≡ spelled 8 (is_accented known.now.book known.now.own) (place_at plate.now at) }
{
    let mut characters = [0u8; 64];
    let field = gather(plate, at, 8, &mut characters)?;
    let size = field.value;
    if is_sized(size) && is_accented(known, &characters[..size]) {
        Ok(field)
    } else {
        Err(Refusal {
            cause: Cause::Spelling,
            place: at,
        })
    }
}
