// The machine of a walk or run: how it starts, one step more, the test of an if on its registers, and what is reported at its end.
// The contracts say it by the state that a machine stands for (transcript/specs/Machine.antt). A register is below 32, and one step more must
// still fit a 64-bit number; any answers will do. The laws say what is in the transcript buffer when one thing follows another, and what a call
// leaves there.
#![tactic(auto)]

mod compare;
mod report;

ghost use Rattle.std.specs.Prelude.{◌≡◌, List, ◌+◌, ◌<◌, replicate, ℤ, pos};
ghost use Rattle.transcript.specs.State.{start, step};
ghost use Rattle.transcript.specs.Machine.{machine_state};

pub use compare::holds;
pub use report::{report_of, see_answers};
use transcript::Machine;

// The machine at the start: no answer taken, no step. The registers that go with it are all 0.
pub fn fresh() -> Machine
    ensures { (answers : List ℤ) → machine_state (replicate 32 (pos 0)) answers result ≡ start answers }
{
    Machine { taken: 0, steps: 0 }
}

// One step more.
pub fn stepped(m: Machine) -> Machine
    requires { m.steps < 18446744073709551615 }
    ensures result_value { (registers answers : List ℤ) → machine_state registers answers result ≡ step (machine_state registers answers m) }
    ensures taken_value { (result.taken ≡ m.taken) × (result.steps ≡ m.steps + 1) }
{
    Machine {
        steps: m.steps + 1,
        ..m
    }
}
