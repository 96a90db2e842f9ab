// A line's statement.
ghost use Rattle.std.specs.Prelude.{◌≡◌, [], ◌+◌, ◌<◌, ◌≤◌, length, drop, get_or};
ghost use Rattle.text.specs.Parts.{split, comma};
ghost use Rattle.output.specs.Pour.{poured};
ghost use Rattle.transcript.specs.Statement.{inputs};
ghost use Rattle.transcript.specs.State.{offered, line_bytes};
ghost use Rattle.transcript.specs.Perform as statement;
ghost use Rattle.transcript.specs.Machine.{machine_state, laid, performed};
ghost use Rattle.lines.specs.Answers.{Heads};
ghost use Rattle.walk_blocks.specs.Says.{statement_by, Says};

use lines::Head;
use transcript::{Machine, Performed};

// The C line of an inputs line, in which the question and its options stand as they do in the C line.
fn put_choices(line: &[u8], out: &mut [u8], at: usize) -> usize
    requires { 0 < length (drop 3 (split comma line.now)) }
    ensures { (result, out.new) ≡ poured at (line_bytes (offered (get_or (split comma line.now) 2 []) (drop 3 (split comma line.now)))) out.old }
{
    let a = text_parts::part_start(line, b',', 2);
    transcript_lines::put_offered(out, at, &line[a..])
}

// inputs: the question with its options, and the answer; after a wrong one both again, as long as there is another try.
fn offer(
    line: &[u8],
    register: usize,
    options: usize,
    answers: &[i32],
    registers: &mut [i32; 32],
    out: &mut [u8],
    at: usize,
    m: Machine,
) -> Performed
    requires { (register < 32) × (options ≡ length (drop 3 (split comma line.now))) × (0 < options) × (m.steps + 3 ≤ 18446744073709551615) }
    ensures out_after { performed registers.new answers.now result out.new ≡ laid at (statement.perform (inputs register (get_or (split comma line.now) 2 []) (drop 3 (split comma line.now))) (machine_state registers.old answers.now m)) out.old }
    ensures steps_bound { result.machine.steps ≤ m.steps + 3 }
{
    let mut n = m;
    let mut end = at;
    let mut wrong = 0;
    loop {
        let behind = put_choices(line, out, end);
        let t = statements::choose(out, behind, registers, register, options, wrong, answers, n);
        let p = t.left;
        if t.again {
            n = p.machine;
            end = p.end;
            wrong += 1;
        } else {
            return p;
        }
    }
}

// The statement of a line with this head.
pub fn perform(
    line: &[u8],
    head: Head,
    answers: &[i32],
    registers: &mut [i32; 32],
    out: &mut [u8],
    at: usize,
    m: Machine,
) -> Performed
    requires { Says head (split comma line.now) × Heads head line.now × (m.steps + 3 ≤ 18446744073709551615) }
    ensures out_after { performed registers.new answers.now result out.new ≡ laid at (statement.perform (statement_by head (split comma line.now)) (machine_state registers.old answers.now m)) out.old }
    ensures steps_bound { result.machine.steps ≤ m.steps + 3 }
{
    match head {
        Head::Input { register } => {
            let a = accepted_lines::behind_register(line, 6);
            statements::ask(out, at, registers, register, &line[a..], answers, m)
        }
        Head::Inputs { register, options } => {
            offer(line, register, options, answers, registers, out, at, m)
        }
        Head::Print => statements::show(out, at, &line[6..], m),
        _ => statements::rule(out, at, &line[8..], m),
    }
}
