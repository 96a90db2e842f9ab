// A whole plate: the own phrases, the instruction count, the instructions and the filling.
ghost use Rattle.std.specs.Prelude.{◌≡◌, ◌+◌, ◌≤◌, length};
ghost use Rattle.causes.specs.Limits.{most_plate_bytes};
ghost use Rattle.output.specs.Pour.{pour};
ghost use Rattle.phrases.specs.Lookup.{book_texts, phrases_in};
ghost use Rattle.phrases.specs.Index.{Indexed, with_own};
ghost use Rattle.phrases.specs.Own.{Listed, OwnKept};
ghost use Rattle.plate.specs.Plate.{result_of, plate_program};
ghost use Rattle.fields.specs.Places.{place_at};
ghost use Rattle.reader.specs.declared.Contents as contents;
ghost use Rattle.reader.specs.Holding.{program_read, rest_read, Stands};
ghost use Rattle.reader.specs.Own.{OwnRoom, own_lines, own_stored};
ghost use Rattle.reader.specs.Whole.{rest_of};

use crate::Contents;
use crate::filling::is_filled;
use crate::own::read_own;
use crate::passing::pass_instructions;
use causes::limits::{INSTRUCTIONS, PLATE_BYTES};
use causes::{Cause, Refusal};
use fields::{Field, read_field};
use phrase_lookup::Lookup;

// What follows the own phrases: the instruction count, the instructions and the filling.
fn read_rest(plate: &[u8], at: usize, known: &Lookup) -> Result<Contents, Refusal>
    requires { length plate.now ≤ most_plate_bytes }
    ensures result_value { rest_read plate.now known.now result ≡ result_of (rest_of known.now (place_at plate.now at)) }
    ensures own_value { (c : contents.Contents) → result ≡ Ok c → c.own ≡ length known.now.own }
    ensures stands { (c : contents.Contents) → result ≡ Ok c → Stands plate.now known.now c }
{
    let Field {
        value: instructions,
        next: bit,
    } = read_field(plate, at, 10, INSTRUCTIONS, Cause::Unused)?;
    let Field {
        value: room,
        next: end,
    } = pass_instructions(plate, bit, instructions, known)?;
    if is_filled(plate, end) {
        Ok(Contents {
            own: known.own_count(),
            instructions,
            bit,
            room,
        })
    } else {
        Err(Refusal {
            cause: Cause::Filling,
            place: end,
        })
    }
}

// What a plate holds. Its own phrases, or those that are read before the reading stops, are the first lines of `own` afterwards; nothing
// else changes there. `own` has room for 32 lines of 72 bytes, if the plate has own phrases. Their numbers stand behind the index of the
// book afterwards.
pub fn read_contents(
    plate: &[u8],
    index: &mut [u32],
    book: &[u8],
    own: &mut [u8],
) -> Result<Contents, Refusal>
    requires { Indexed index.old book.now × (with_own + length (book_texts book.now) ≤ length index.old) × OwnRoom plate.now own.old }
    ensures result_after { program_read plate.now book.now own.new result ≡ plate_program (book_texts book.now) plate.now }
    ensures listed { (c : contents.Contents) → result ≡ Ok c → Listed index.new book.now own.new c.own }
    ensures stands { (c : contents.Contents) → result ≡ Ok c → Stands plate.now (phrases_in book.now own.new c.own) c }
    ensures own_after { own.new ≡ pour 0 (own_lines (own_stored (book_texts book.now) plate.now)) own.old }
    ensures own_kept { OwnKept book.now index.old index.new }
{
    if PLATE_BYTES < plate.len() {
        return Err(Refusal {
            cause: Cause::PlateTooLong,
            place: 0,
        });
    }
    let Field { value: count, next } = read_own(plate, index, book, own)?;
    read_rest(plate, next, &Lookup::new(index, book, own, count))
}
