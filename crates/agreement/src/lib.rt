// Demand 3: running the translator's plate gives what walking the guide gives, for every list of answers.
// specs/Agreement.antt says what is claimed, in the order of the demand's sentences; proofs/ shows it for every book, guide, plate that
// the translation makes of it, scratch and transcript buffer. specs/Composed.antt says the same of the calls: the function composes
// translate and run, and its contract stands on their own promises. src/more.rt composes two runs.
#![tactic(auto)]

mod more;

ghost use Rattle.std.specs.Prelude.{ℕ, ◌≤◌, ◌≡◌, length, take};
ghost use Rattle.causes.specs.Answers.{wrote, ran_answer};
ghost use Rattle.running.specs.Call.{scratch_numbers};
ghost use Rattle.translating.specs.Call.{translate_call};
ghost use Rattle.agreement.specs.Agreement.{Agreement};
ghost use Rattle.agreement.specs.Composed.{translate_then_run};

use causes::{Ran, Written};
pub use more::{Runs, run_and_go_on};

// A guide is translated into the plate buffer, and the bytes written are run on the answers.
pub fn translate_and_run(
    guide: &[u8],
    book: &[u8],
    plate: &mut [u8],
    answers: &[i32],
    scratch: &mut [u16],
    transcript: &mut [u8],
) -> Ran
    ensures transcript_after { (ran_answer result, transcript.new) ≡ translate_then_run guide.now book.now plate.old answers.now (length scratch.old) transcript.old }
    ensures plate_after { plate.new ≡ (translate_call guide.now book.now plate.old).1 }
    ensures by_index { (n : ℕ) → (translate_call guide.now book.now plate.old).0 ≡ wrote n → scratch_numbers ≤ length scratch.old → Agreement book.now guide.now (take n plate.new) answers.now (length scratch.old) transcript.old }
    ensures scratch_unchanged { scratch.new ≡ scratch.old }
{
    let length = translate::translate(guide, book, plate)?;
    run::run(&plate[..length], book, answers, scratch, transcript)
}
