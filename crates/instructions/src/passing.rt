// Instructions of a plate that are read first: each is judged, and answers the room of its line in a listing and the bit behind it.
// The room is counted with the longest numbers: `input,31,`, `inputs,31,`, `print,`, `printex,` before a text, `goto,511`,
// `if,31,eq,-2147483648,511`, and LF.
ghost use Rattle.std.specs.Prelude.{◌≡◌, ◌≤◌, length};
ghost use Rattle.causes.specs.Limits.{most_plate_bytes};
ghost use Rattle.output.specs.Pour.{up_to};
ghost use Rattle.phrases.specs.Phrases.{Phrases};
ghost use Rattle.plate.specs.Plate.{fields_by, instruction};
ghost use Rattle.fields.specs.Places.{place_at, field_read, measured};
ghost use Rattle.listing.specs.LineSizes.{line_room};

use causes::{Cause, Refusal};
use fields::{Field, read_field, read_plain, read_skip};
use phrase_lookup::Lookup;
use plate_constants::read_test;
use plate_texts::{pass_text, pass_texts};

// input: register, text.
fn pass_input(plate: &[u8], at: usize, known: &Lookup) -> Result<Field<usize>, Refusal>
    requires { length plate.now ≤ most_plate_bytes }
    ensures { field_read plate.now result ≡ measured (λ i. up_to (line_room i)) (fields_by known.now 0 0 (place_at plate.now at)) }
{
    let register = read_plain(plate, at, 5)?;
    pass_text(plate, register.next, known, 10)
}

// inputs: register, text, options less two, and as many texts.
fn pass_inputs(plate: &[u8], at: usize, known: &Lookup) -> Result<Field<usize>, Refusal>
    requires { length plate.now ≤ most_plate_bytes }
    ensures { field_read plate.now result ≡ measured (λ i. up_to (line_room i)) (fields_by known.now 0 1 (place_at plate.now at)) }
{
    let register = read_plain(plate, at, 5)?;
    let text = pass_text(plate, register.next, known, 11)?;
    let options = read_field(plate, text.next, 3, 6, Cause::Unused)?;
    let n = options.value + 2;
    pass_texts(plate, options.next, n, known, text.value)
}

// goto: skip.
fn pass_goto(plate: &[u8], at: usize, behind: usize) -> Result<Field<usize>, Refusal>
    requires { length plate.now ≤ most_plate_bytes }
    ensures { (c : Phrases) → field_read plate.now result ≡ measured (λ i. up_to (line_room i)) (fields_by c behind 4 (place_at plate.now at)) }
{
    let skip = read_skip(plate, at, behind)?;
    Ok(Field {
        value: 9,
        next: skip.next,
    })
}

// if: register, OP, constant, skip.
fn pass_if(plate: &[u8], at: usize, behind: usize) -> Result<Field<usize>, Refusal>
    requires { length plate.now ≤ most_plate_bytes }
    ensures { (c : Phrases) → field_read plate.now result ≡ measured (λ i. up_to (line_room i)) (fields_by c behind 5 (place_at plate.now at)) }
{
    let test = read_test(plate, at)?;
    let skip = read_skip(plate, test.next, behind)?;
    Ok(Field {
        value: 25,
        next: skip.next,
    })
}

// The room of an instruction's line, and the bit behind the instruction, with so many behind it.
pub fn pass_instruction(
    plate: &[u8],
    at: usize,
    behind: usize,
    known: &Lookup,
) -> Result<Field<usize>, Refusal>
    requires { length plate.now ≤ most_plate_bytes }
    ensures { field_read plate.now result ≡ measured (λ i. up_to (line_room i)) (instruction known.now behind (place_at plate.now at)) }
{
    let Field { value: code, next } = read_field(plate, at, 3, 5, Cause::Unused)?;
    match code {
        0 => pass_input(plate, next, known),
        1 => pass_inputs(plate, next, known),
        2 => pass_text(plate, next, known, 7),
        3 => pass_text(plate, next, known, 9),
        4 => pass_goto(plate, next, behind),
        _ => pass_if(plate, next, behind),
    }
}
