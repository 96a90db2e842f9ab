// The run in one or two passes.
ghost use Rattle.std.specs.Prelude.{◌≡◌, List, ℤ, ◌+◌, ◌*◌, ◌≤◌, length};
ghost use Rattle.causes.specs.Answers.{made, lent, ran_answer};
ghost use Rattle.causes.specs.declared.Outcome.TheVariants.{End};
ghost use Rattle.causes.specs.Limits.{most_plate_bytes};
ghost use Rattle.transcript.specs.State.{start};
ghost use Rattle.transcript.specs.Perform.{report};
ghost use Rattle.transcript.specs.Machine.{machine_state, laid, performed};
ghost use Rattle.reader.specs.Holding.{instructions_at, program_at, Stands};
ghost use Rattle.running.specs.Run.{run};
ghost use Rattle.run.specs.Accepted.{Continues};

use causes::{Cause, Outcome, Ran, Refusal};
use phrase_lookup::Lookup;
use reader::Contents;
use run_steps::meet;
use transcript::Performed;

// The run of n instructions from a bit on, behind what has been performed.
fn run_from(
    plate: &[u8],
    known: &Lookup,
    from: usize,
    n: usize,
    answers: &[i32],
    registers: &mut [i32; 32],
    out: &mut [u8],
    begun: Performed,
) -> Performed
    requires { (length plate.now ≤ most_plate_bytes) × Continues plate.now known.now n from × (begun.outcome ≡ End) × (begun.machine.steps + 3 * n ≤ 18446744073709551615) }
    ensures { performed registers.new answers.now result out.new ≡ laid begun.end (run (instructions_at plate.now known.now n from) 0 (machine_state registers.old answers.now begun.machine)) out.old }
{
    let mut p = begun;
    let mut bit = from;
    let mut over = 0;
    for left in (0..n).rev() {
        let met = meet(plate, bit, left, known, over, answers, registers, out, p);
        p = met.left;
        let Outcome::End = p.outcome else {
            return p;
        };
        bit = met.next;
        over = met.over;
    }
    p
}

// The run of a plate's instructions, with registers that are all 0 at first: the buffer takes as much of the transcript as it has room for.
fn produce(plate: &[u8], known: &Lookup, c: Contents, answers: &[i32], out: &mut [u8]) -> Performed
    requires { Stands plate.now known.now c }
    ensures { (registers : List ℤ) × (performed registers answers.now result out.new ≡ laid 0 (run (program_at plate.now known.now c).instructions 0 (start answers.now)) out.old) }
{
    let mut registers = [0i32; 32];
    let begun = Performed {
        machine: machine::fresh(),
        outcome: Outcome::End,
        end: 0,
    };
    run_from(
        plate,
        known,
        c.bit,
        c.instructions,
        answers,
        &mut registers,
        out,
        begun,
    )
}

// The run of an accepted plate. No transcript has more bytes than 14 for each answer and three times what is left of the room of its
// instructions' lines in a listing with 4 less for each instruction; where there are no answers, each line comes once. A buffer of so many is
// written straight. Else the run is made on no buffer first, to learn the transcript's length; then 11, or the transcript is written.
pub fn write(
    plate: &[u8],
    known: &Lookup,
    c: Contents,
    answers: &[i32],
    transcript: &mut [u8],
) -> Ran
    requires { Stands plate.now known.now c }
    ensures { (ran_answer result, transcript.new) ≡ lent (made (report (run (program_at plate.now known.now c).instructions 0 (start answers.now)))) transcript.old }
{
    machine::see_answers(answers);
    let n = c.instructions;
    let room = c.room;
    if answers.is_empty() && room <= transcript.len() + 4 * n {
        return machine::report_of(produce(plate, known, c, answers, transcript));
    }
    if answers.len() <= 65536
        && room <= 16777216
        && 3 * room + 14 * answers.len() <= transcript.len() + 12 * n
    {
        return machine::report_of(produce(plate, known, c, answers, transcript));
    }
    let length = produce(plate, known, c, answers, &mut []).end;
    if transcript.len() < length {
        return Err(Refusal {
            cause: Cause::TooShort,
            place: 0,
        });
    }
    machine::report_of(produce(plate, known, c, answers, transcript))
}
