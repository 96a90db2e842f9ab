// The lines of a run, written straight from the plate at the front of the transcript's unwritten tail, and the statements that are left
// behind them. `offer` answers what the inputs instruction leaves that its head begins.
ghost use Rattle.std.specs.Prelude.{◌≡◌, List, ℕ, ◌+◌, ◌<◌, ◌≤◌, length, ℤ};
ghost use Rattle.causes.specs.Limits.{most_plate_bytes};
ghost use Rattle.output.specs.Pour.{poured};
ghost use Rattle.transcript.specs.State.{State, step};
ghost use Rattle.transcript.specs.Perform as spec;
ghost use Rattle.transcript.specs.Machine.{machine_state, ending_by, laid, performed};
ghost use Rattle.transcript_lines.specs.TextLine.{text_line};
ghost use Rattle.plate.specs.Reading.{got};
ghost use Rattle.plate.specs.Plate as reader;
ghost use Rattle.fields.specs.Places.{place_at, end_with, Known};
ghost use Rattle.instructions.specs.declared.Head.TheVariants.{Inputs};
ghost use Rattle.instructions.specs.Heads.{headed, instruction_of};
ghost use Rattle.run_steps.specs.Meets.{left_by, over_by};
ghost use Rattle.run_steps.specs.Lines.{text_at, inputs_at, choices_of, Offers};

use crate::Met;
use causes::Outcome;
use fields::Copied;
use phrase_lookup::Lookup;
use plate_texts::{Offered, copy_options, copy_text};
use transcript::Machine;
use transcript_lines::OFFERED;

// The line of a letter and a text of the plate, at the front of the transcript's unwritten tail.
fn line_in(plate: &[u8], bit: usize, known: &Lookup, letter: u8, tail: &mut [u8]) -> Copied
    requires { (length plate.now ≤ most_plate_bytes) × Known (reader.text known.now (place_at plate.now bit)) }
    ensures tail_after { (result.end, tail.new) ≡ poured 0 (text_line letter (text_at plate.now known.now bit)) tail.old }
    ensures next_value { got 0 (place_at plate.now result.next) ≡ end_with 0 (reader.text known.now (place_at plate.now bit)) }
{
    let text_at = transcript_lines::begin(tail, letter);
    let text = copy_text(plate, bit, known, tail, text_at);
    let end = transcript_lines::end(tail, text.end);
    Copied { end, ..text }
}

// The same at a place of the transcript: its tail from there on, which is empty past the buffer's end, takes it.
pub fn put_line(
    plate: &[u8],
    bit: usize,
    known: &Lookup,
    letter: u8,
    out: &mut [u8],
    at: usize,
) -> Copied
    requires { (length plate.now ≤ most_plate_bytes) × Known (reader.text known.now (place_at plate.now bit)) }
    ensures out_after { (result.end, out.new) ≡ poured at (text_line letter (text_at plate.now known.now bit)) out.old }
    ensures next_value { got 0 (place_at plate.now result.next) ≡ end_with 0 (reader.text known.now (place_at plate.now bit)) }
{
    let from = output::least(at, out.len());
    let line = line_in(plate, bit, known, letter, &mut out[from..]);
    let end = output::sum(at, line.end);
    Copied { end, ..line }
}

// The C line of an inputs instruction, at the front of the transcript's unwritten tail: its question, and its options.
fn choices_in(plate: &[u8], bit: usize, known: &Lookup, register: usize, tail: &mut [u8]) -> Offered
    requires { (length plate.now ≤ most_plate_bytes) × Known (headed plate.now known.now (Inputs register bit)) }
    ensures tail_after { (result.end, tail.new) ≡ poured 0 (choices_of (inputs_at plate.now known.now register bit)) tail.old }
    ensures offers { Offers register result.options (inputs_at plate.now known.now register bit) }
    ensures next_value { got 0 (place_at plate.now result.next) ≡ end_with 0 (headed plate.now known.now (Inputs register bit)) }
{
    let text_at = transcript_lines::begin(tail, OFFERED);
    let text = copy_text(plate, bit, known, tail, text_at);
    let options = copy_options(plate, text.next, known, tail, text.end);
    let end = transcript_lines::end(tail, options.end);
    Offered { end, ..options }
}

// The same at a place of the transcript.
fn put_choices(
    plate: &[u8],
    bit: usize,
    known: &Lookup,
    register: usize,
    out: &mut [u8],
    at: usize,
) -> Offered
    requires { (length plate.now ≤ most_plate_bytes) × Known (headed plate.now known.now (Inputs register bit)) }
    ensures out_after { (result.end, out.new) ≡ poured at (choices_of (inputs_at plate.now known.now register bit)) out.old }
    ensures offers { Offers register result.options (inputs_at plate.now known.now register bit) }
    ensures next_value { got 0 (place_at plate.now result.next) ≡ end_with 0 (headed plate.now known.now (Inputs register bit)) }
{
    let from = output::least(at, out.len());
    let line = choices_in(plate, bit, known, register, &mut out[from..]);
    let end = output::sum(at, line.end);
    Offered { end, ..line }
}

// input, once its Q line is written: the answer.
pub fn answer(
    line: Copied,
    register: usize,
    answers: &[i32],
    registers: &mut [i32; 32],
    out: &mut [u8],
    m: Machine,
) -> Met
    requires { (register < 32) × (m.steps < 18446744073709551615) }
    ensures out_after { performed registers.new answers.now result.left out.new ≡ laid line.end (spec.answer register (machine_state registers.old answers.now m).left (step (machine_state registers.old answers.now m))) out.old }
    ensures over_value { (result.over ≡ 0) × (result.next ≡ line.next) × (result.left.machine.steps ≡ m.steps + 1) }
{
    Met {
        left: statements::answer(out, line.end, registers, register, answers, m),
        over: 0,
        next: line.next,
    }
}

// inputs: a question with its options, and then its answer; after a wrong one both again, as long as there is another try.
pub fn offer(
    plate: &[u8],
    bit: usize,
    known: &Lookup,
    register: usize,
    answers: &[i32],
    registers: &mut [i32; 32],
    out: &mut [u8],
    at: usize,
    m: Machine,
) -> Met
    requires { (length plate.now ≤ most_plate_bytes) × (register < 32) × Known (headed plate.now known.now (Inputs register bit)) × (m.steps + 3 ≤ 18446744073709551615) }
    ensures out_after { performed registers.new answers.now result.left out.new ≡ laid at (left_by 0 (instruction_of (headed plate.now known.now (Inputs register bit))) (machine_state registers.old answers.now m)) out.old }
    ensures steps_bound { ((s : State) → result.over ≡ over_by 0 (instruction_of (headed plate.now known.now (Inputs register bit))) s) × (result.left.machine.steps ≤ m.steps + 3) }
    ensures next_value { got 0 (place_at plate.now result.next) ≡ end_with 0 (headed plate.now known.now (Inputs register bit)) }
{
    let mut n = m;
    let mut end = at;
    let mut wrong = 0;
    loop {
        let line = put_choices(plate, bit, known, register, out, end);
        let t = statements::choose(
            out,
            line.end,
            registers,
            register,
            line.options,
            wrong,
            answers,
            n,
        );
        if !t.again {
            return Met {
                left: t.left,
                over: 0,
                next: line.next,
            };
        }
        n = t.left.machine;
        end = t.left.end;
        wrong += 1;
    }
}

// print or printex, once its line is written: one step, and the outcome.
pub fn leave(line: Copied, outcome: Outcome, m: Machine) -> Met
    requires { m.steps < 18446744073709551615 }
    ensures out_value { (registers answers : List ℤ) (out : List ℕ) → performed registers answers result.left out ≡ laid line.end (ending_by outcome (step (machine_state registers answers m))) out }
    ensures over_value { (result.over ≡ 0) × (result.next ≡ line.next) × (result.left.machine.steps ≡ m.steps + 1) }
{
    Met {
        left: statements::leave(m, outcome, line.end),
        over: 0,
        next: line.next,
    }
}
