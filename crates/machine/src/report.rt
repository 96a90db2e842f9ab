// What is known of the answers, and what is reported at the end.
ghost use Rattle.std.specs.Prelude.{◌≡◌};
ghost use Rattle.causes.specs.Answers.{ended, ran_answer};
ghost use Rattle.causes.specs.Causes.{outcome_number, wrong_answers};
ghost use Rattle.machine.specs.Ranged.{Ranged};

use causes::{Ran, Report};
use transcript::Performed;

// Each answer has 32 bits: known once it has been read. The loop is for the proof alone.
pub fn see_answers(answers: &[i32])
    ensures { Ranged answers.now }
{
    for &answer in answers {}
}

// What is answered for a walk or run whose whole transcript is written.
pub fn report_of(p: Performed) -> Ran
    ensures { ran_answer result ≡ ended p.end (outcome_number p.outcome) p.machine.taken p.machine.steps (wrong_answers p.outcome) }
{
    Ok(Report {
        length: p.end,
        outcome: p.outcome,
        taken: p.machine.taken,
        steps: p.machine.steps,
    })
}
