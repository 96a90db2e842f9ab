// The runner: runs a plate.
// crate running says in its specs/Run.antt what the run of a plate's instructions is, and in its specs/Call.antt what the call answers and
// leaves in the lent buffer; crate run_steps meets one instruction.
// The book is checked, unless it is empty, then the whole plate is read, and a refusal leaves the buffer as it was. Only a plate with own
// phrases is given room for them, so that a small plate clears no large array. The run goes from instruction to instruction of the plate's
// bits. Jumps only go forward, so to skip is to read on: it keeps the bit of the next instruction, how many are left, and how many of these
// are passed over. A buffer that is surely long enough is written at once; else the run is made twice: first on no buffer, to learn
// the transcript's length, and then on the lent one. Scratch is tested for its length and left alone.
#![tactic(auto)]

mod passes;

ghost use Rattle.std.specs.Prelude.{◌≡◌, length};
ghost use Rattle.causes.specs.Limits.{most_own};
ghost use Rattle.causes.specs.Answers.{ran_answer};
ghost use Rattle.output.specs.Pour.{pour};
ghost use Rattle.phrases.specs.Lookup.{book_texts};
ghost use Rattle.phrases.specs.Index.{CheckedBook};
ghost use Rattle.reader.specs.Own.{OwnRoom, own_lines, own_stored};
ghost use Rattle.running.specs.Call.{run_call};

use causes::{Cause, Ran, Refusal};
use phrase_lookup::Lookup;
use phrases::{EMPTY_INDEX_NUMBERS, INDEX_NUMBERS};
use reader::OWN_BYTES;

// The 16-bit numbers of scratch that a run asks for.
pub const SCRATCH_NUMBERS: usize = 64;

// The run with a book that is checked and room for the plate's own phrases, if it has some.
fn run_own(
    plate: &[u8],
    index: &mut [u32],
    book: &[u8],
    own: &mut [u8],
    answers: &[i32],
    scratch: &mut [u16],
    transcript: &mut [u8],
) -> Ran
    requires { CheckedBook most_own index.old book.now × OwnRoom plate.now own.old }
    ensures transcript_after { (ran_answer result, transcript.new) ≡ run_call plate.now book.now answers.now (length scratch.old) transcript.old }
    ensures scratch_unchanged { scratch.new ≡ scratch.old }
    ensures own_after { own.new ≡ pour 0 (own_lines (own_stored (book_texts book.now) plate.now)) own.old }
{
    let contents = reader::read_contents(plate, index, book, own)?;
    if scratch.len() < SCRATCH_NUMBERS {
        return Err(Refusal {
            cause: Cause::TooShort,
            place: 0,
        });
    }
    let known = Lookup::new(index, book, own, contents.own);
    passes::write(plate, &known, contents, answers, transcript)
}

// The run with a book that is checked. Only a plate with own phrases is given room for them.
fn run_with(
    plate: &[u8],
    index: &mut [u32],
    book: &[u8],
    answers: &[i32],
    scratch: &mut [u16],
    transcript: &mut [u8],
) -> Ran
    requires { CheckedBook most_own index.old book.now }
    ensures transcript_after { (ran_answer result, transcript.new) ≡ run_call plate.now book.now answers.now (length scratch.old) transcript.old }
    ensures scratch_unchanged { scratch.new ≡ scratch.old }
{
    if reader::has_own(plate) {
        let mut own = [0u8; OWN_BYTES];
        return run_own(plate, index, book, &mut own, answers, scratch, transcript);
    }
    run_own(plate, index, book, &mut [], answers, scratch, transcript)
}

// A plate is run on the answers, and its transcript written.
pub fn run(
    plate: &[u8],
    book: &[u8],
    answers: &[i32],
    scratch: &mut [u16],
    transcript: &mut [u8],
) -> Ran
    ensures transcript_after { (ran_answer result, transcript.new) ≡ run_call plate.now book.now answers.now (length scratch.old) transcript.old }
    ensures scratch_unchanged { scratch.new ≡ scratch.old }
{
    if book.is_empty() {
        let mut index = [0u32; EMPTY_INDEX_NUMBERS];
        return run_with(plate, &mut index, book, answers, scratch, transcript);
    }
    let mut index = [0u32; INDEX_NUMBERS];
    phrase_check::check_book(book, &mut index)?;
    run_with(plate, &mut index, book, answers, scratch, transcript)
}
