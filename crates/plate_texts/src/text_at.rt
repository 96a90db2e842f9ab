// Texts of a plate that are read first: spelled out, or a phrase; and several, one behind the other.
ghost use Rattle.std.specs.Prelude.{◌≡◌, ◌+◌, ◌≤◌, length};
ghost use Rattle.causes.specs.Limits.{most_plate_bytes};
ghost use Rattle.causes.specs.declared.Cause.TheVariants.{Unused};
ghost use Rattle.bits.specs.Ahead.{ahead_in};
ghost use Rattle.output.specs.Pour.{up_to};
ghost use Rattle.transcript.specs.Offered.{options_bytes};
ghost use Rattle.plate.specs.Reading.{number, judged, many};
ghost use Rattle.plate.specs.Plate as reader;
ghost use Rattle.fields.specs.Places.{place_at, field_read, measured};
ghost use Rattle.plate_texts.specs.TextsAt.{code_with};

use crate::accented_text::read_accented;
use crate::phrase_place::pass_phrase;
use crate::spelled_text::read_spelled;
use causes::{Cause, Refusal};
use fields::{Field, plain_ahead};
use phrase_lookup::Lookup;

// Whether a code of a text is used, with so many phrases.
fn is_code(code: usize, n: usize) -> bool
    ensures { result ≡ code_with n code }
{
    match code {
        0 | 1 => true,
        2 => 0 < n,
        _ => false,
    }
}

// The code of a text, with so many phrases.
pub fn read_code(plate: &[u8], ahead: usize, at: usize, n: usize) -> Result<Field<usize>, Refusal>
    requires { (length plate.now ≤ most_plate_bytes) × (ahead ≡ ahead_in plate.now at) }
    ensures { field_read plate.now result ≡ judged (number 2) (code_with n) Unused (place_at plate.now at) }
{
    let field = plain_ahead(plate, ahead, at, 0, 2)?;
    if is_code(field.value, n) {
        Ok(field)
    } else {
        Err(Refusal {
            cause: Cause::Unused,
            place: at,
        })
    }
}

// A text that was read, its size added to that of what stands before it.
fn behind(front: usize, text: Field<usize>) -> Field<usize>
    ensures { (result.value ≡ up_to (front + text.value)) × (result.next ≡ text.next) }
{
    Field {
        value: output::sum(front, text.value),
        next: text.next,
    }
}

// The size of a text, which is judged, added to that of what stands before it, and the bit behind the text.
pub fn pass_text(
    plate: &[u8],
    at: usize,
    known: &Lookup,
    front: usize,
) -> Result<Field<usize>, Refusal>
    requires { length plate.now ≤ most_plate_bytes }
    ensures { field_read plate.now result ≡ measured (λ t. up_to (front + length t)) (reader.text known.now (place_at plate.now at)) }
{
    let ahead = bits_ahead::read_ahead(plate, at);
    let code = read_code(plate, ahead, at, known.count())?;
    match code.value {
        0 => {
            let text = read_spelled(plate, code.next, known)?;
            Ok(behind(front, text))
        }
        1 => {
            let text = read_accented(plate, code.next, known)?;
            Ok(behind(front, text))
        }
        _ => pass_phrase(plate, ahead, at, known, front),
    }
}

// The same of n texts, each behind a comma.
pub fn pass_texts(
    plate: &[u8],
    at: usize,
    n: usize,
    known: &Lookup,
    front: usize,
) -> Result<Field<usize>, Refusal>
    requires { length plate.now ≤ most_plate_bytes }
    ensures { field_read plate.now result ≡ measured (λ ts. up_to (front + length (options_bytes ts))) (many (λ j. reader.text known.now) n (place_at plate.now at)) }
{
    let mut bit = at;
    let mut size = front;
    for _ in 0..n {
        let comma = output::sum(size, 1);
        let text = pass_text(plate, bit, known, comma)?;
        size = text.value;
        bit = text.next;
    }
    Ok(Field {
        value: size,
        next: bit,
    })
}
