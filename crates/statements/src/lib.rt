// What each statement does to the machine and to the transcript.
// A statement takes the machine by value and returns it, with the outcome and the place where the transcript ends; the registers are lent
// to it. Its contract says the whole answer, the registers and the whole buffer by `perform` (transcript/specs/Perform.antt): a line is stored
// as far as the buffer goes, and counted to its end. The C line of inputs is written before, and `choose` then makes one try: where it says
// `again`, the caller writes the C line again and tries once more. A caller that writes another line itself then calls `answer` or `leave`.
// Any text, any answers and any buffer will do. A register is below 32, and one step more must still fit a 64-bit number.
#![tactic(auto)]

ghost use Rattle.std.specs.Prelude.{◌≡◌, List, ℕ, suc, ◌+◌, ◌<◌, length, drop, get_or, ℤ, pos};
ghost use Rattle.transcript.specs.Statement.{input, print, printex};
ghost use Rattle.transcript.specs.State.{step};
ghost use Rattle.transcript.specs.Perform.{goes_on, is_option, take_wrong, perform};
ghost use Rattle.transcript.specs.Tries.{again, tried};
ghost use Rattle.transcript.specs.Perform as spec;
ghost use Rattle.transcript.specs.Machine.{machine_state, ending_by, laid, performed};

use causes::Outcome;
use causes::limits::MORE_TRIES;
use machine::stepped;
use transcript::{Machine, Performed};
use transcript_lines::{put_answered, put_asked, put_ruled, put_shown};

// What a try at inputs leaves, and whether the answer was wrong and another try is left: then the C line is to be written again.
#[derive(Clone, Copy)]
pub struct Tried {
    pub left: Performed,
    pub again: bool,
}

// A statement left after its step, with no answer taken, no register set and nothing more written.
pub fn leave(m: Machine, outcome: Outcome, end: usize) -> Performed
    requires { m.steps < 18446744073709551615 }
    ensures out_value { (registers answers : List ℤ) (out : List ℕ) → performed registers answers result out ≡ laid end (ending_by outcome (step (machine_state registers answers m))) out }
    ensures taken_value { (result.machine.taken ≡ m.taken) × (result.machine.steps ≡ m.steps + 1) }
{
    let n = stepped(m);
    Performed {
        machine: n,
        outcome,
        end,
    }
}

// The next answer, of which there is one, taken as a wrong one is: one step and an A line, and no register is set.
fn take_wrong(out: &mut [u8], at: usize, answers: &[i32], m: Machine) -> Performed
    requires { (m.taken < length answers.now) × (m.steps < 18446744073709551615) }
    ensures out_after { (registers : List ℤ) → performed registers answers.now result out.new ≡ laid at (goes_on (take_wrong (get_or answers.now m.taken (pos 0)) (drop (suc m.taken) answers.now) (step (machine_state registers answers.now m)))) out.old }
    ensures steps_value { result.machine.steps ≡ m.steps + 1 }
{
    let taken = m.taken;
    let end = put_answered(out, at, answers[taken]);
    let mut n = m;
    n.taken = taken + 1;
    n.steps = m.steps + 1;
    Performed {
        machine: n,
        outcome: Outcome::End,
        end,
    }
}

// The same, and it becomes the register's value.
fn take_answer(
    out: &mut [u8],
    at: usize,
    registers: &mut [i32; 32],
    register: usize,
    answers: &[i32],
    m: Machine,
) -> Performed
    requires { (register < 32) × (m.taken < length answers.now) × (m.steps < 18446744073709551615) }
    ensures out_after { performed registers.new answers.now result out.new ≡ laid at (spec.answer register (machine_state registers.old answers.now m).left (step (machine_state registers.old answers.now m))) out.old }
    ensures steps_value { result.machine.steps ≡ m.steps + 1 }
{
    let taken = m.taken;
    registers[register] = answers[taken];
    take_wrong(out, at, answers, m)
}

// Whether an answer is the place of one of the options.
fn is_option(v: i32, options: usize) -> bool
    ensures { result ≡ is_option options v }
{
    if 0 <= v {
        return (v as usize) < options;
    }
    false
}

// input, once its Q line is written: the answer, if there is one. With no answer left it waits.
pub fn answer(
    out: &mut [u8],
    at: usize,
    registers: &mut [i32; 32],
    register: usize,
    answers: &[i32],
    m: Machine,
) -> Performed
    requires { (register < 32) × (m.steps < 18446744073709551615) }
    ensures out_after { performed registers.new answers.now result out.new ≡ laid at (spec.answer register (machine_state registers.old answers.now m).left (step (machine_state registers.old answers.now m))) out.old }
    ensures steps_value { result.machine.steps ≡ m.steps + 1 }
{
    if m.taken < answers.len() {
        return take_answer(out, at, registers, register, answers, m);
    }
    leave(m, Outcome::Waiting { wrong: 0 }, at)
}

// input: a question, and then its answer. With no answer left it waits.
pub fn ask(
    out: &mut [u8],
    at: usize,
    registers: &mut [i32; 32],
    register: usize,
    text: &[u8],
    answers: &[i32],
    m: Machine,
) -> Performed
    requires { (register < 32) × (m.steps < 18446744073709551615) }
    ensures out_after { performed registers.new answers.now result out.new ≡ laid at (perform (input register text.now) (machine_state registers.old answers.now m)) out.old }
    ensures steps_value { result.machine.steps ≡ m.steps + 1 }
{
    let end = put_asked(out, at, text);
    answer(out, end, registers, register, answers, m)
}

// inputs, once its C line is written, after so many wrong answers to it: the answer, taken if it is the place of an option, or if it is wrong and
// another try is left. With no answer left it waits.
pub fn choose(
    out: &mut [u8],
    at: usize,
    registers: &mut [i32; 32],
    register: usize,
    options: usize,
    wrong: u8,
    answers: &[i32],
    m: Machine,
) -> Tried
    requires { (register < 32) × (m.steps < 18446744073709551615) }
    ensures out_after { performed registers.new answers.now result.left out.new ≡ laid at (tried register options wrong (machine_state registers.old answers.now m).left (step (machine_state registers.old answers.now m))) out.old }
    ensures again_value { (result.again ≡ again options wrong (machine_state registers.old answers.now m).left) × (result.left.machine.steps ≡ m.steps + 1) }
{
    let taken = m.taken;
    if taken < answers.len() {
        if is_option(answers[taken], options) {
            let left = take_answer(out, at, registers, register, answers, m);
            return Tried { left, again: false };
        }
        if wrong < MORE_TRIES {
            let left = take_wrong(out, at, answers, m);
            return Tried { left, again: true };
        }
        let left = leave(m, Outcome::Outside, at);
        return Tried { left, again: false };
    }
    let left = leave(m, Outcome::Waiting { wrong }, at);
    Tried { left, again: false }
}

// print: a text shown.
pub fn show(out: &mut [u8], at: usize, text: &[u8], m: Machine) -> Performed
    requires { m.steps < 18446744073709551615 }
    ensures out_after { (registers answers : List ℤ) → performed registers answers result out.new ≡ laid at (perform (print text.now) (machine_state registers answers m)) out.old }
    ensures steps_value { (result.machine.steps ≡ m.steps + 1) × (result.machine.taken ≡ m.taken) }
{
    let end = put_shown(out, at, text);
    leave(m, Outcome::End, end)
}

// printex: a verdict, which ends.
pub fn rule(out: &mut [u8], at: usize, text: &[u8], m: Machine) -> Performed
    requires { m.steps < 18446744073709551615 }
    ensures out_after { (registers answers : List ℤ) → performed registers answers result out.new ≡ laid at (perform (printex text.now) (machine_state registers answers m)) out.old }
    ensures steps_value { (result.machine.steps ≡ m.steps + 1) × (result.machine.taken ≡ m.taken) }
{
    let end = put_ruled(out, at, text);
    leave(m, Outcome::Verdict, end)
}
