// The walk, in one pass or two.
ghost use Rattle.std.specs.Prelude.{◌≡◌, List, ℤ, ℕ, ◌≤◌, length};
ghost use Rattle.causes.specs.Limits.{most_guide_bytes};
ghost use Rattle.causes.specs.Answers.{made, lent, ran_answer};
ghost use Rattle.transcript.specs.Perform.{report};
ghost use Rattle.transcript.specs.Machine.{laid, performed};
ghost use Rattle.lines.specs.declared.Form.TheVariants.{Guide as a_guide};
ghost use Rattle.lines.specs.Clean.{Clean};
ghost use Rattle.lines.specs.Answers.{seen_in, checked_answer};
ghost use Rattle.text.specs.Text.{Text};
ghost use Rattle.walk_blocks.specs.Descend.{walk_text};

use causes::{Cause, Ran, Refusal};
use transcript::Performed;
use walk_blocks::block;

// The walk over a guide's lines, of which there are few enough that their steps fit, with registers that are all 0 at first: the buffer
// takes as much of the transcript as it has room for.
fn produce(guide: &[u8], answers: &[i32], out: &mut [u8]) -> Performed
    requires { (length guide.now ≤ most_guide_bytes) × Clean a_guide guide.now }
    ensures { (registers : List ℤ) × (performed registers answers.now result out.new ≡ laid 0 (walk_text guide.now answers.now) out.old) }
{
    let mut registers = [0i32; 32];
    let w = block(guide, answers, &mut registers, out, 0, 0, machine::fresh());
    w.left
}

// The walk of a guide that the check accepts, with so many instructions. A buffer three times as long as the guide, with 12 bytes less for each
// instruction and 14 more for each answer, takes any transcript. Else the walk is made on no buffer first, to learn the transcript's length;
// then 11, or the transcript is written.
pub fn write(guide: &[u8], instructions: usize, answers: &[i32], transcript: &mut [u8]) -> Ran
    requires { (book : List Text) × (own : ℕ) × (checked_answer (seen_in a_guide book guide.now) ≡ Ok (record { own = own; instructions = instructions })) }
    ensures { (ran_answer result, transcript.new) ≡ lent (made (report (walk_text guide.now answers.now))) transcript.old }
{
    if answers.len() <= 65536 {
        if 3 * guide.len() + 14 * answers.len() <= transcript.len() + 12 * instructions {
            machine::see_answers(answers);
            return machine::report_of(produce(guide, answers, transcript));
        }
    }
    let length = produce(guide, answers, &mut []).end;
    if transcript.len() < length {
        return Err(Refusal {
            cause: Cause::TooShort,
            place: 0,
        });
    }
    machine::report_of(produce(guide, answers, transcript))
}
