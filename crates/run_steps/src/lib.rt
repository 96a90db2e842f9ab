// An instruction of a run: passed over, performed, or a jump.
// An instruction is read as it is met: its head, and behind it the texts, which are copied straight from the plate into the transcript. `meet`
// answers what specs/Meets.antt says: how the instruction is left, with the transcript in the lent buffer, how many behind it are passed over,
// and the bit behind it. The plate has been read and accepted, so the instruction is there, and three steps more must still fit a 64-bit number.
#![tactic(auto)]

mod perform;

ghost use Rattle.std.specs.Prelude.{◌≡◌, List, ℕ, ◌+◌, ◌≤◌, ◌<◌, length, ℤ};
ghost use Rattle.causes.specs.Limits.{most_plate_bytes};
ghost use Rattle.transcript.specs.State.{step};
ghost use Rattle.transcript.specs.Perform.{goes_on};
ghost use Rattle.transcript.specs.Machine.{machine_state, laid, performed};
ghost use Rattle.plate.specs.Program.{if_skip};
ghost use Rattle.plate.specs.Reading.{got};
ghost use Rattle.plate.specs.Plate.{instruction};
ghost use Rattle.fields.specs.Places.{place_at, end_with, Known};
ghost use Rattle.instructions.specs.Heads.{headed, HeadFits, instruction_of};
ghost use Rattle.run_steps.specs.Meets.{left_by, over_by};

use crate::perform::{answer, leave, offer, put_line};
use causes::Outcome;
use instructions::{Head, IfRead, accepted_end, accepted_head, accepted_if};
use phrase_lookup::Lookup;
use transcript::{Machine, Performed};
use transcript_lines::{ASKED, RULED, SHOWN};

// What an instruction leaves: the machine, the outcome and the transcript's end, how many instructions behind it are passed over, and the
// bit behind it.
#[derive(Clone, Copy)]
pub struct Met {
    pub left: Performed,
    pub over: usize,
    pub next: usize,
}

// The run goes on at a bit, with so many instructions to be passed over.
fn go_on(m: Machine, end: usize, over: usize, next: usize) -> Met
    ensures out_value { (registers answers : List ℤ) (out : List ℕ) → performed registers answers result.left out ≡ laid end (goes_on (machine_state registers answers m)) out }
    ensures over_value { (result.over ≡ over) × (result.next ≡ next) × (result.left.machine.steps ≡ m.steps) }
{
    let left = Performed {
        machine: m,
        outcome: Outcome::End,
        end,
    };
    Met { left, over, next }
}

// An if: where its test holds, the run goes on behind it.
fn decide(registers: &[i32; 32], read: IfRead, m: Machine, at: usize) -> Met
    requires { (read.test.register < 32) × (m.steps < 18446744073709551615) }
    ensures out_value { (answers : List ℤ) (out : List ℕ) → performed registers.now answers result.left out ≡ laid at (goes_on (step (machine_state registers.now answers m))) out }
    ensures over_value { (answers : List ℤ) → result.over ≡ over_by 0 (if_skip read.test read.skip) (machine_state registers.now answers m) }
    ensures next_value { (result.next ≡ read.next) × (result.left.machine.steps ≡ m.steps + 1) }
{
    let n = machine::stepped(m);
    if machine::holds(registers, read.test) {
        go_on(n, at, 0, read.next)
    } else {
        go_on(n, at, read.skip, read.next)
    }
}

// The instruction that a head begins, where it is not passed over.
fn perform_head(
    plate: &[u8],
    head: Head,
    known: &Lookup,
    answers: &[i32],
    registers: &mut [i32; 32],
    out: &mut [u8],
    at: usize,
    m: Machine,
) -> Met
    requires { (length plate.now ≤ most_plate_bytes) × HeadFits plate.now head × Known (headed plate.now known.now head) × (m.steps + 3 ≤ 18446744073709551615) }
    ensures out_after { performed registers.new answers.now result.left out.new ≡ laid at (left_by 0 (instruction_of (headed plate.now known.now head)) (machine_state registers.old answers.now m)) out.old }
    ensures over_value { (result.over ≡ over_by 0 (instruction_of (headed plate.now known.now head)) (machine_state registers.old answers.now m)) × (result.left.machine.steps ≤ m.steps + 3) }
    ensures next_value { got 0 (place_at plate.now result.next) ≡ end_with 0 (headed plate.now known.now head) }
{
    match head {
        Head::Input { register, text } => {
            let line = put_line(plate, text, known, ASKED, out, at);
            answer(line, register, answers, registers, out, m)
        }
        Head::Inputs { register, text } => {
            offer(plate, text, known, register, answers, registers, out, at, m)
        }
        Head::Print { text } => {
            let line = put_line(plate, text, known, SHOWN, out, at);
            leave(line, Outcome::End, m)
        }
        Head::Printex { text } => {
            let line = put_line(plate, text, known, RULED, out, at);
            leave(line, Outcome::Verdict, m)
        }
        Head::Goto { skip, next } => go_on(machine::stepped(m), at, skip, next),
        Head::IfSkip { bit, ahead } => decide(registers, accepted_if(plate, bit, ahead), m, at),
    }
}

// An instruction with so many behind it, and so many still to be passed over, behind what has been performed.
pub fn meet(
    plate: &[u8],
    bit: usize,
    behind: usize,
    known: &Lookup,
    over: usize,
    answers: &[i32],
    registers: &mut [i32; 32],
    out: &mut [u8],
    begun: Performed,
) -> Met
    requires { (length plate.now ≤ most_plate_bytes) × Known (instruction known.now behind (place_at plate.now bit)) × (begun.machine.steps + 3 ≤ 18446744073709551615) }
    ensures out_after { performed registers.new answers.now result.left out.new ≡ laid begun.end (left_by over (instruction_of (instruction known.now behind (place_at plate.now bit))) (machine_state registers.old answers.now begun.machine)) out.old }
    ensures over_value { (result.over ≡ over_by over (instruction_of (instruction known.now behind (place_at plate.now bit))) (machine_state registers.old answers.now begun.machine)) × (result.left.machine.steps ≤ begun.machine.steps + 3) }
    ensures next_value { got 0 (place_at plate.now result.next) ≡ end_with 0 (instruction known.now behind (place_at plate.now bit)) }
{
    let at = begun.end;
    let m = begun.machine;
    if 0 < over {
        let next = accepted_end(plate, bit, behind, known);
        return go_on(m, at, over - 1, next);
    }
    let head = accepted_head(plate, bit);
    perform_head(plate, head, known, answers, registers, out, at, m)
}
