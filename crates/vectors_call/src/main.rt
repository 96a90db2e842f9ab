// Tries the five calls on the cases of its standard input: every cause of each call, at its place; every limit of a guide, a listing, a
// plate and a book; scratch and lent buffers of all lengths; and random inputs.
// A case begins with the number of its call: 0 translate, 1 write_plate, 2 read_plate, 3 walk, 4 run. Writes a line for each case;
// model/README.md has the format.
#![tactic(auto)]

use causes::Written;
use std::io;

// Translate, write_plate or read_plate, on one case, whose lent output has its content already.
fn written(call: usize, input: &[u8], book: &[u8], out: &mut [u8]) -> Written {
    match call {
        0 => translate::translate(input, book, out),
        1 => write_plate::write_plate(input, book, out),
        _ => read_plate::read_plate(input, book, out),
    }
}

// One case, and its line; whether there was one more of a call.
fn case(
    rt: &HostRuntime,
    input: &mut [u8],
    book: &mut [u8],
    answers: &mut [i32],
    scratch: &mut [u16],
    out: &mut [u8],
) -> io::Result<bool> {
    let mut from = rt.stdin();
    let Some(call) = vectors::read_number(&mut from) else {
        return Ok(false);
    };
    let Some(c) = vectors::read_case(&mut from, input, book, out) else {
        return Ok(false);
    };
    let input = &input[..c.input];
    let book = &book[..c.book];
    let out = &mut out[..c.lent];
    if call < 3 {
        let answer = written(call, input, book, out);
        vectors::print_line(
            rt,
            &mut [0; 256],
            |line| vectors::put_written(line, 0, answer, out),
        )?;
        return Ok(true);
    }
    let count = vectors::read_answers(&mut from, answers);
    let answers = &answers[..count];
    let answer = match call {
        3 => walk::walk(input, book, answers, out),
        4 => {
            let numbers = vectors::read_scratch(&mut from, scratch);
            run::run(input, book, answers, &mut scratch[..numbers], out)
        }
        _ => return Ok(false),
    };
    vectors::print_line(
        rt,
        &mut [0; 256],
        |line| vectors::put_ran(line, 0, answer, out),
    )?;
    Ok(true)
}

fn main(rt: HostRuntime) -> io::Result<()> {
    let mut scratch = [0; vectors::SCRATCH];
    vectors::each_case(
        &mut [0; vectors::INPUT],
        &mut [0; vectors::BOOK],
        &mut [0; vectors::ANSWERS],
        &mut vectors::lent_space(),
        |input, book, answers, out| case(&rt, input, book, answers, &mut scratch, out),
    )
}
