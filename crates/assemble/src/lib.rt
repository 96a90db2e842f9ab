// The plate of an accepted guide or listing, made line by line in one pass, for the translator and the converter.
// A line of a listing says its own skip; an if and an else line of a guide take theirs from a table, at the number of their instruction.
// specs/LineCode.antt says which program that is, and specs/Assembled.antt what `write` answers and leaves in the lent buffer: 8 at the
// first line whose skip goes past the instructions behind it, 10, 11, or the plate.
// The plate is made in an array of the longest plate's length, and copied to the front of the lent buffer, so that a refusal leaves it as it
// was and the bytes behind a plate stay.
#![tactic(auto)]

mod line;

ghost use Rattle.std.specs.Prelude.{◌≡◌};
ghost use Rattle.causes.specs.Answers.{written_answer};
ghost use Rattle.phrases.specs.Lookup.{book_texts};
ghost use Rattle.phrases.specs.Own.{Listed};
ghost use Rattle.lines.specs.Check.{lines_of};
ghost use Rattle.assemble.specs.LineCode.{lines_code, program_in};
ghost use Rattle.assemble.specs.Assembled.{Counted, lent_program, Produced};

use causes::limits::PLATE_BYTES;
use causes::{Cause, Refusal, Written};
use line::{count_of, put, skip_at, skip_of};
use lines::Form;
use phrase_lookup::Lookup;

// The whole plate of an accepted text, whose own phrases are known, as far as the array goes: how many bits it has, or the first line whose skip goes past the
// instructions behind it. The own phrases' lines come before the instructions' lines, so that the
// line of an instruction follows from how many are left behind it.
fn produce(
    out: &mut [u8; PLATE_BYTES],
    form: Form,
    text: &[u8],
    skips: &[u16],
    known: &Lookup,
    instructions: usize,
) -> Result<usize, Refusal>
    requires { Counted form skips.now text.now instructions }
    ensures { Produced known.now.book (record { own = known.now.own; instructions = lines_code skips.now (lines_of form text.now) }) out.old result out.new }
{
    let mut end = plate_room::put_front(out, known.own_lines(), known.own_count(), instructions);
    let mut left = instructions;
    let mut a = 0;
    while a < text.len() {
        let e = text::find(text, a, b'\n');
        let line = &text[a..e];
        let head = accepted_lines::accepted_line(form, line);
        let behind = left - count_of(head);
        let skip = skip_of(head, skip_at(skips, instructions - left));
        if behind < skip {
            return Err(Refusal {
                cause: Cause::Skip,
                place: known.own_count() + instructions - behind,
            });
        }
        end = put(out, end, head, line, skip, known);
        left = behind;
        a = e + 1;
    }
    Ok(plate_room::put_fill(out, end))
}

// The plate of an accepted text, in a lent buffer. `own` and `instructions` are what the check counts.
pub fn write(
    form: Form,
    text: &[u8],
    skips: &[u16],
    index: &[u32],
    book: &[u8],
    own: usize,
    instructions: usize,
    plate: &mut [u8],
) -> Written
    requires { Listed index.now book.now text.now own × Counted form skips.now text.now instructions }
    ensures { (written_answer result, plate.new) ≡ lent_program (book_texts book.now) (program_in form skips.now text.now own) plate.old }
{
    let mut array = [0u8; PLATE_BYTES];
    let known = Lookup::new(index, book, text, own);
    let bits = produce(&mut array, form, text, skips, &known, instructions)?;
    plate_room::lend(&array, bits, plate)
}
