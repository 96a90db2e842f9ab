// The line that a vector program writes a call's answer as: document 01's number and place, or the result's values; then the whole of the
// lent output. model/README.md has the format.
ghost use Rattle.std.specs.Prelude.{◌≡◌, length};
ghost use Rattle.causes.specs.Answers.{written_answer, ran_answer, ended, refusing};
ghost use Rattle.causes.specs.Causes.{outcome_number, wrong_answers};
ghost use Rattle.output.specs.Pour.{poured};
ghost use Rattle.vectors.specs.Lines.{values, lent_end, written_line, ran_line};

use crate::buffer::put_buffer;
use causes::{Ran, Refusal, Report, Written};
use printed::{front, put_labelled};
use std::io;

// N,NUMBER,PLACE
fn put_refused(out: &mut [u8], at: usize, r: Refusal) -> usize
    ensures { (result, out.new) ≡ poured at (values (refusing r.cause r.place)) out.old }
{
    let end = put_labelled(out, at, b"N,", u32::from(r.cause) as usize);
    put_labelled(out, end, b",", r.place)
}

// Y,LENGTH,OUTCOME,TAKEN,STEPS,WRONG
fn put_report(out: &mut [u8], at: usize, r: Report) -> usize
    ensures { (result, out.new) ≡ poured at (values (ended r.length (outcome_number r.outcome) r.taken r.steps (wrong_answers r.outcome))) out.old }
{
    let end = put_labelled(out, at, b"Y,", r.length);
    let end = put_labelled(out, end, b",", u32::from(r.outcome) as usize);
    let end = put_labelled(out, end, b",", r.taken);
    let end = put_labelled(out, end, b",", r.steps);
    put_labelled(out, end, b",", r.outcome.wrong() as usize)
}

// The values of an answer of translate, write_plate or read_plate.
fn put_written_values(out: &mut [u8], at: usize, answer: Written) -> usize
    ensures { (result, out.new) ≡ poured at (values (written_answer answer)) out.old }
{
    match answer {
        Ok(n) => put_labelled(out, at, b"Y,", n),
        Err(r) => put_refused(out, at, r),
    }
}

// The values of an answer of walk or run.
fn put_ran_values(out: &mut [u8], at: usize, answer: Ran) -> usize
    ensures { (result, out.new) ≡ poured at (values (ran_answer answer)) out.old }
{
    match answer {
        Ok(r) => put_report(out, at, r),
        Err(r) => put_refused(out, at, r),
    }
}

// The lent output behind a comma, and the line's end.
fn put_lent(out: &mut [u8], at: usize, lent: &[u8]) -> usize
    ensures { (result, out.new) ≡ poured at (lent_end lent.now) out.old }
{
    let end = text_out::put_byte(out, at, b',');
    let end = put_buffer(out, end, lent);
    text_out::put_byte(out, end, b'\n')
}

// The answer of translate, write_plate or read_plate.
pub fn put_written(out: &mut [u8], at: usize, answer: Written, lent: &[u8]) -> usize
    ensures { (result, out.new) ≡ poured at (written_line answer lent.now) out.old }
{
    let end = put_written_values(out, at, answer);
    put_lent(out, end, lent)
}

// The answer of walk or run.
pub fn put_ran(out: &mut [u8], at: usize, answer: Ran, lent: &[u8]) -> usize
    ensures { (result, out.new) ≡ poured at (ran_line answer lent.now) out.old }
{
    let end = put_ran_values(out, at, answer);
    put_lent(out, end, lent)
}

// Prints a line of a call's case, which `put` writes into the lent space: it answers where the line ends.
pub fn print_line<F: FnOnce(&mut [u8]) -> usize>(
    rt: &impl Print,
    line: &mut [u8],
    put: F,
) -> io::Result<()>
    requires { F.IsAlwaysCallable put }
    ensures { length line.new ≡ length line.old }
{
    let end = put(line);
    rt.write_all(front(line, end))
}
