// The ends of blocks.
ghost use Rattle.std.specs.Prelude.{◌≡◌, List, ℕ, ◌≤◌, length, drop, ℤ};
ghost use Rattle.transcript.specs.Machine.{machine_state};
ghost use Rattle.lines.specs.declared.Form.TheVariants.{Guide as a_guide};
ghost use Rattle.lines.specs.Clean.{Clean};
ghost use Rattle.guide.specs.Lines.{lines_at};
ghost use Rattle.walk_blocks.specs.Descend as descend;
ghost use Rattle.walk_blocks.specs.Leaves.{Leaves, StepsFit, Paced};
ghost use Rattle.walk_blocks.specs.Says.{is_end};

use crate::Walked;
use causes::Outcome;
use transcript::{Machine, Performed};

// Whether a walk goes on.
pub fn goes_on(p: Performed) -> bool
    ensures { result ≡ is_end p.outcome }
{
    let outcome = p.outcome;
    match outcome {
        Outcome::Verdict => false,
        Outcome::End => true,
        Outcome::Waiting { .. } => false,
        Outcome::Outside => false,
    }
}

// The walk goes on at a place.
pub fn here(m: Machine, end: usize, place: usize) -> Walked
    ensures by_index { (g : List ℕ) (registers answers : List ℤ) (out : List ℕ) → Leaves g answers result registers out end (descend.here (machine_state registers answers m) (lines_at g place)) out }
    ensures place_value { (result.place ≡ place) × (result.left.machine.steps ≡ m.steps) }
{
    let left = Performed {
        machine: m,
        outcome: Outcome::End,
        end,
    };
    Walked { left, place }
}

// Behind a true block that ends at a: with an else line one step, and the else block is passed over.
pub fn leave_true(guide: &[u8], a: usize, end: usize, m: Machine) -> Walked
    requires { (a ≤ length guide.now) × StepsFit guide.now a m.steps × Clean a_guide (drop a guide.now) }
    ensures leaves { (registers answers : List ℤ) (out : List ℕ) → Leaves guide.now answers result registers out end (descend.leave_true (machine_state registers answers m) (lines_at guide.now a)) out }
    ensures paced { Paced guide.now a result }
{
    let h = guide::role_at(guide, a);
    let role = h.role;
    if guide::is_else(role) {
        let f = guide::role_at(guide, guide::pass_over(guide, h.next));
        let n = machine::stepped(m);
        return here(n, end, f.next);
    }
    here(m, end, h.next)
}

// Behind an else block that ends at a.
pub fn leave_else(guide: &[u8], a: usize, end: usize, m: Machine) -> Walked
    requires { (a ≤ length guide.now) × StepsFit guide.now a m.steps × Clean a_guide (drop a guide.now) }
    ensures leaves { (registers answers : List ℤ) (out : List ℕ) → Leaves guide.now answers result registers out end (descend.leave_else (machine_state registers answers m) (lines_at guide.now a)) out }
    ensures paced { Paced guide.now a result }
{
    let h = guide::role_at(guide, a);
    here(m, end, h.next)
}
