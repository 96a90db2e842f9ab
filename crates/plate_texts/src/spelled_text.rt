// A text that is spelled out in characters of 7 bits: up to ETX, judged as a whole at its first bit.
ghost use Rattle.std.specs.Prelude.{◌≡◌, ◌≤◌, length};
ghost use Rattle.causes.specs.Limits.{most_plate_bytes};
ghost use Rattle.text.specs.Text.{Text, text_size};
ghost use Rattle.phrases.specs.Phrases.{is_new};
ghost use Rattle.plate.specs.Plate.{spelled};
ghost use Rattle.fields.specs.Places.{place_at, size_read, until_etx, values_of, Known};

use causes::{Cause, Refusal};
use fields::Field;
use phrase_lookup::Lookup;
use plate_characters::{copy_each, read_size};

// Whether a text is no phrase.
pub fn is_new(known: &Lookup, text: &[u8]) -> bool
    ensures { result ≡ is_new known.now.book known.now.own text.now }
{
    known.find(text).is_none()
}

// Whether a text of so many characters has 1 to 64.
pub fn is_sized(size: usize) -> bool
    ensures { (t : Text) → length t ≡ size → result ≡ text_size t }
{
    0 < size && size <= 64
}

// Whether a text of so many characters from a bit on, up to ETX, is no phrase: its characters are copied, and looked for.
fn is_new_at(plate: &[u8], bit: usize, size: usize, known: &Lookup) -> bool
    requires { (length plate.now ≤ most_plate_bytes) × Known (until_etx 7 (place_at plate.now bit)) × (size ≡ length (values_of (until_etx 7 (place_at plate.now bit)))) × (size ≤ 64) }
    ensures { result ≡ is_new known.now.book known.now.own (values_of (until_etx 7 (place_at plate.now bit))) }
{
    let mut characters = [0u8; 64];
    copy_each(plate, bit, 7, &mut characters, 0);
    is_new(known, &characters[..size])
}

// The same, at once where there are no phrases.
#[inline(always)]
fn is_no_phrase(plate: &[u8], bit: usize, size: usize, known: &Lookup) -> bool
    requires { (length plate.now ≤ most_plate_bytes) × Known (until_etx 7 (place_at plate.now bit)) × (size ≡ length (values_of (until_etx 7 (place_at plate.now bit)))) × (size ≤ 64) }
    ensures { result ≡ is_new known.now.book known.now.own (values_of (until_etx 7 (place_at plate.now bit))) }
{
    known.count() == 0 || is_new_at(plate, bit, size, known)
}

// The size of a text that is spelled out, and the bit behind its ETX.
#[inline(always)]
pub fn read_spelled(plate: &[u8], at: usize, known: &Lookup) -> Result<Field<usize>, Refusal>
    requires { length plate.now ≤ most_plate_bytes }
    ensures { size_read 7 plate.now at result ≡ spelled 7 (is_new known.now.book known.now.own) (place_at plate.now at) }
{
    let field = read_size(plate, at)?;
    let size = field.value;
    if is_sized(size) && is_no_phrase(plate, at, size, known) {
        Ok(field)
    } else {
        Err(Refusal {
            cause: Cause::Spelling,
            place: at,
        })
    }
}
