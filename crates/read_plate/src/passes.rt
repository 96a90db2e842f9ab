// The whole listing, written in one or two passes.
ghost use Rattle.std.specs.Prelude.{◌≡◌, [], ◌∷◌, map, ◌≤◌, length};
ghost use Rattle.causes.specs.Limits.{most_plate_bytes};
ghost use Rattle.causes.specs.Answers.{written_answer, made, output, lent};
ghost use Rattle.output.specs.Pour.{poured};
ghost use Rattle.plate.specs.Reading.{got};
ghost use Rattle.plate.specs.Plate.{instruction};
ghost use Rattle.fields.specs.Places.{place_at, end_with, Known};
ghost use Rattle.instructions.specs.Heads.{instruction_of};
ghost use Rattle.reader.specs.Holding.{There, instructions_at, program_at, Stands};
ghost use Rattle.listing.specs.Listing.{instruction_fields, lines_text, listing_text};
ghost use Rattle.listing.specs.LineSizes.{lines_room};

use crate::phrase_lines::put_phrases;
use causes::{Cause, Refusal, Written};
use fields::Copied;
use listing_lines::put_instruction;
use phrase_lookup::Lookup;
use reader::Contents;

// The line of the instruction at a bit, written at a place of the listing: its tail from there on, which is empty past the buffer's end,
// takes it.
fn line_at(
    plate: &[u8],
    bit: usize,
    behind: usize,
    known: &Lookup,
    out: &mut [u8],
    at: usize,
) -> Copied
    requires { (length plate.now ≤ most_plate_bytes) × Known (instruction known.now behind (place_at plate.now bit)) }
    ensures out_after { (result.end, out.new) ≡ poured at (lines_text (instruction_fields (instruction_of (instruction known.now behind (place_at plate.now bit))) ∷ [])) out.old }
    ensures next_value { got 0 (place_at plate.now result.next) ≡ end_with 0 (instruction known.now behind (place_at plate.now bit)) }
{
    let from = output::least(at, out.len());
    let copied = put_instruction(plate, bit, behind, known, &mut out[from..]);
    let end = output::sum(at, copied.end);
    Copied {
        end,
        next: copied.next,
    }
}

// The lines of n instructions from a bit on. All are there, so none is refused.
fn put_instructions(
    plate: &[u8],
    known: &Lookup,
    n: usize,
    bit: usize,
    out: &mut [u8],
    at: usize,
) -> usize
    requires { (length plate.now ≤ most_plate_bytes) × There (instruction known.now) plate.now n bit (instructions_at plate.now known.now n bit) }
    ensures { (result, out.new) ≡ poured at (lines_text (map instruction_fields (instructions_at plate.now known.now n bit))) out.old }
{
    let mut end = at;
    let mut place = bit;
    for behind in (0..n).rev() {
        let copied = line_at(plate, place, behind, known, out, end);
        end = copied.end;
        place = copied.next;
    }
    end
}

// The listing of a plate's contents.
fn produce(plate: &[u8], known: &Lookup, contents: Contents, out: &mut [u8]) -> usize
    requires { Stands plate.now known.now contents }
    ensures { (result, out.new) ≡ poured 0 (listing_text (program_at plate.now known.now contents)) out.old }
{
    let end = put_phrases(known, out, 0);
    put_instructions(plate, known, contents.instructions, contents.bit, out, end)
}

// Straight, where the buffer has room for every line; else first on no buffer, to learn the listing's length, and then 11, or the listing is
// written. The room of the instructions' lines is known since the plate was read; the own phrases' lines are counted on no buffer.
pub fn write(plate: &[u8], known: &Lookup, contents: Contents, listing: &mut [u8]) -> Written
    requires { Stands plate.now known.now contents × (length (lines_text (map instruction_fields (program_at plate.now known.now contents).instructions)) ≤ lines_room (program_at plate.now known.now contents).instructions) }
    ensures { (written_answer result, listing.new) ≡ lent (made (output (listing_text (program_at plate.now known.now contents)))) listing.old }
{
    let most = output::sum(put_phrases(known, &mut [], 0), contents.room);
    if most <= listing.len() {
        return Ok(produce(plate, known, contents, listing));
    }
    let length = produce(plate, known, contents, &mut []);
    if listing.len() < length {
        return Err(Refusal {
            cause: Cause::TooShort,
            place: 0,
        });
    }
    produce(plate, known, contents, listing);
    Ok(length)
}
