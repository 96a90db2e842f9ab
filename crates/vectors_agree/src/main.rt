// Translates each guide of its standard input, runs the bytes written and walks the guide, and compares the two answers and the two
// whole buffers itself: writes the walk's line where they are the same, `D` where they differ, and for a guide that is not translated
// the refusal alone. The cases are those of the call walk; model/README.md has the format.
#![tactic(auto)]

use causes::limits::PLATE_BYTES;
use causes::{Ran, Report, Written};
use std::io;

// Whether two reports are the same.
fn same_report(a: Report, b: Report) -> bool {
    a.length == b.length
        && u32::from(a.outcome) == u32::from(b.outcome)
        && a.outcome.wrong() == b.outcome.wrong()
        && a.taken == b.taken
        && a.steps == b.steps
}

// Whether two answers are the same.
fn same_answer(a: Ran, b: Ran) -> bool {
    match (a, b) {
        (Ok(first), Ok(second)) => same_report(first, second),
        (Err(first), Err(second)) => {
            u32::from(first.cause) == u32::from(second.cause) && first.place == second.place
        }
        _ => false,
    }
}

// The walk's line where the run gave the same. This and the function below fill the line, and answer where it ends.
fn compare(line: &mut [u8], walked: Ran, transcript: &[u8], ran: Ran, other: &[u8]) -> usize {
    if same_answer(walked, ran) && transcript == other {
        vectors::put_ran(line, 0, walked, transcript)
    } else {
        text_out::put(line, 0, b"D\n")
    }
}

// The guide translated and run, and walked, on one case, whose two lent outputs have the same content.
fn call(
    line: &mut [u8],
    guide: &[u8],
    book: &[u8],
    answers: &[i32],
    first: &mut [u8],
    second: &mut [u8],
) -> usize {
    let mut plate = [0; PLATE_BYTES];
    let mut scratch = [0; run::SCRATCH_NUMBERS];
    let translated = translate::translate(guide, book, &mut plate);
    if matches!(translated, Err(_)) {
        return vectors::put_written(line, 0, translated, &[]);
    }
    let walked = walk::walk(guide, book, answers, first);
    let ran = agreement::translate_and_run(guide, book, &mut plate, answers, &mut scratch, second);
    compare(line, walked, first, ran, second)
}

// One case, and its line; whether there was one more. The second output is as long as the first, and has its content.
fn case(
    rt: &HostRuntime,
    input: &mut [u8],
    book: &mut [u8],
    answers: &mut [i32],
    out: &mut [u8],
    other: &mut [u8],
) -> io::Result<bool> {
    let mut from = rt.stdin();
    let Some(c) = vectors::read_case(&mut from, input, book, out) else {
        return Ok(false);
    };
    let count = vectors::read_answers(&mut from, answers);
    let lent = vectors::lent(other, c.lent);
    let second = &mut other[..lent];
    vectors::fill(second);
    vectors::print_line(rt, &mut [0; 256], |line| {
        call(
            line,
            &input[..c.input],
            &book[..c.book],
            &answers[..count],
            &mut out[..c.lent],
            second,
        )
    })?;
    Ok(true)
}

// All cases, up to the end of standard input, with a second output.
fn cases(rt: &HostRuntime, other: &mut [u8]) -> io::Result<()> {
    vectors::each_case(
        &mut [0; vectors::INPUT],
        &mut [0; vectors::BOOK],
        &mut [0; vectors::ANSWERS],
        &mut vectors::lent_space(),
        |input, book, answers, out| case(rt, input, book, answers, out, other),
    )
}

fn main(rt: HostRuntime) -> io::Result<()> {
    cases(&rt, &mut vectors::lent_space())
}
