// A block and a statement, which call each other: a block runs its statements in order, and an if statement runs one of its blocks. So the
// calls nest as deep as the ifs do.
ghost use Rattle.std.specs.Prelude.{◌≡◌, true, false, ◌∷◌, ◌+◌, ◌≤◌, length, drop};
ghost use Rattle.lines.specs.declared.Form.TheVariants.{Guide as a_guide};
ghost use Rattle.lines.specs.Line.{line_of};
ghost use Rattle.lines.specs.Clean.{Clean};
ghost use Rattle.transcript.specs.Machine.{machine_state};
ghost use Rattle.guide.specs.Lines.{begins_by, lines_at, line_text, Stands};
ghost use Rattle.walk_blocks.specs.Descend.{walk_if, statement_with, descend};
ghost use Rattle.walk_blocks.specs.Leaves.{LeavesFrom, StepsFit, Paced};

use crate::Walked;
use crate::leave::{goes_on, here, leave_else, leave_true};
use crate::perform::perform;
use guide::Here;
use lines::Head;
use transcript::Machine;

// The block that begins at a, up to its else, its fi or the end.
#[cycle(block_no_block_statement_true_block)]
pub fn block(
    guide: &[u8],
    answers: &[i32],
    registers: &mut [i32; 32],
    out: &mut [u8],
    a: usize,
    at: usize,
    begun: Machine,
) -> Walked
    requires { (a ≤ length guide.now) × StepsFit guide.now a begun.steps × Clean a_guide (drop a guide.now) }
    ensures leaves_from { LeavesFrom guide.now a answers.now result registers.new out.new at (λ n. descend n (machine_state registers.old answers.now begun) (lines_at guide.now a)) out.old }
    ensures paced { Paced guide.now a result }
{
    let mut place = a;
    let mut end = at;
    let mut m = begun;
    loop {
        let Some(h) = guide::line_at(guide, place) else {
            return here(m, end, place);
        };
        if !guide::begins(h.role) {
            return here(m, end, place);
        }
        let w = statement(guide, answers, registers, out, h, end, m);
        if !goes_on(w.left) {
            return w;
        }
        place = w.place;
        end = w.left.end;
        m = w.left.machine;
    }
}

// The statement or the if whose line is h.
#[cycle(block_no_block_statement_true_block)]
fn statement(
    guide: &[u8],
    answers: &[i32],
    registers: &mut [i32; 32],
    out: &mut [u8],
    h: Here,
    at: usize,
    m: Machine,
) -> Walked
    requires { Stands guide.now h × (begins_by h.role ≡ true) × StepsFit guide.now h.next (m.steps + 3) × Clean a_guide (drop h.next guide.now) }
    ensures leaves_from { LeavesFrom guide.now h.next answers.now result registers.new out.new at (λ n. statement_with (descend n) (machine_state registers.old answers.now m) (line_of a_guide (line_text guide.now h) ∷ lines_at guide.now h.next)) out.old }
    ensures paced { Paced guide.now h.next result }
{
    let Head::If { test } = h.head else {
        let line = &guide[h.start..h.end];
        return Walked {
            left: perform(line, h.head, answers, registers, out, at, m),
            place: h.next,
        };
    };
    let n = machine::stepped(m);
    if machine::holds(registers, test) {
        return true_block(guide, answers, registers, out, h.next, at, n);
    }
    no_block(guide, answers, registers, out, h.next, at, n)
}

// An if whose test holds, from its true block on.
#[cycle(block_no_block_statement_true_block)]
fn true_block(
    guide: &[u8],
    answers: &[i32],
    registers: &mut [i32; 32],
    out: &mut [u8],
    a: usize,
    at: usize,
    m: Machine,
) -> Walked
    requires { (a ≤ length guide.now) × StepsFit guide.now a m.steps × Clean a_guide (drop a guide.now) }
    ensures leaves_from { LeavesFrom guide.now a answers.now result registers.new out.new at (λ n. walk_if true (descend n) (machine_state registers.old answers.now m) (lines_at guide.now a)) out.old }
    ensures paced { Paced guide.now a result }
{
    let w = block(guide, answers, registers, out, a, at, m);
    if goes_on(w.left) {
        return leave_true(guide, w.place, w.left.end, w.left.machine);
    }
    w
}

// An if whose test does not hold: its true block is passed over, and its else block walked.
#[cycle(block_no_block_statement_true_block)]
fn no_block(
    guide: &[u8],
    answers: &[i32],
    registers: &mut [i32; 32],
    out: &mut [u8],
    a: usize,
    at: usize,
    m: Machine,
) -> Walked
    requires { (a ≤ length guide.now) × StepsFit guide.now a m.steps × Clean a_guide (drop a guide.now) }
    ensures leaves_from { LeavesFrom guide.now a answers.now result registers.new out.new at (λ n. walk_if false (descend n) (machine_state registers.old answers.now m) (lines_at guide.now a)) out.old }
    ensures paced { Paced guide.now a result }
{
    let h = guide::role_at(guide, guide::pass_over(guide, a));
    if !guide::is_else(h.role) {
        return here(m, at, h.next);
    }
    let w = block(guide, answers, registers, out, h.next, at, m);
    if goes_on(w.left) {
        return leave_else(guide, w.place, w.left.end, w.left.machine);
    }
    w
}
