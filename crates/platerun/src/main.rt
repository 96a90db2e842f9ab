// platerun PLATE BOOK ANSWER..: runs a plate, given in hexadecimal, on the answers. Prints the transcript, and a line with the outcome,
// the answers taken, the steps and the wrong answers to the present question; or its refusal.
// A plate of more than 2,953 bytes is refused whatever it holds, so that 2,954 bytes of it are enough. A run meets at most 512
// instructions, and each takes at most three answers.
#![tactic(auto)]

use refusal_words::Counted;
use std::io;

// What is printed of a plate, whose run leaves its transcript in the lent space. This stands apart from `main`, so that a proof about it does
// not go over the elements of the space.
fn print_run(rt: &HostRuntime, plate: &[u8], transcript: &mut [u8]) -> io::Result<()> {
    tools::with_answers(rt, Counted::Bits, transcript, |book, answers, transcript| {
        let mut scratch = [0; run::SCRATCH_NUMBERS];
        run::run(plate, book, answers, &mut scratch, transcript)
    })
}

fn main(rt: HostRuntime) -> io::Result<()> {
    if tools::argument_count(&rt, 3) < 3 {
        return eprintln!(rt;
            "usage: platerun PLATE BOOK ANSWER.. (a file - is standard input; /dev/null is an empty book)"
        );
    }
    let mut plate = [0; tools::PLATE];
    let Some(size) = tools::read_plate(&rt, 1, &mut plate) else {
        return Ok(());
    };
    print_run(&rt, &plate[..size], &mut tools::transcript_space())
}
