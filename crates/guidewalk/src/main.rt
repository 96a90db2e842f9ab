// guidewalk GUIDE BOOK ANSWER..: walks a guide on the answers. Prints the transcript, and a line with the outcome, the answers taken, the
// steps and the wrong answers to the present question; or its refusal.
// A guide of more than 16,384 bytes is refused whatever it holds, so that 16,385 bytes of it are enough. A walk meets at most 512
// statements, and each takes at most three answers.
#![tactic(auto)]

use refusal_words::Counted;
use std::io;

// What is printed of a guide, whose walk leaves its transcript in the lent space. This stands apart from `main`, so that a proof about it does
// not go over the elements of the space.
fn print_walk(rt: &HostRuntime, guide: &[u8], transcript: &mut [u8]) -> io::Result<()> {
    tools::with_answers(
        rt,
        Counted::Lines,
        transcript,
        |book, answers, transcript| walk::walk(guide, book, answers, transcript),
    )
}

fn main(rt: HostRuntime) -> io::Result<()> {
    if tools::argument_count(&rt, 3) < 3 {
        return eprintln!(rt;
            "usage: guidewalk GUIDE BOOK ANSWER.. (a file - is standard input; /dev/null is an empty book)"
        );
    }
    let mut guide = [0; tools::GUIDE];
    let Some(length) = tools::read_file(&rt, 1, &mut guide) else {
        return Ok(());
    };
    print_walk(&rt, &guide[..length], &mut tools::transcript_space())
}
