// listplate LISTING BOOK: prints `plate,` and the plate of a listing in hexadecimal; or its refusal.
// A listing of more than 327,680 bytes is refused whatever it holds, so that 327,681 bytes of it are enough. A plate has at most 2,953
// bytes, and its line 5,913.
#![tactic(auto)]

use causes::limits::PLATE_BYTES;
use printed::front;
use refusal_words::Counted;
use std::io;

// The line of a plate.
fn print(rt: &impl Print, plate: &[u8]) -> io::Result<()> {
    let mut line = [0; 6000];
    let end = printed::put_plate(&mut line, 0, plate);
    rt.write_all(front(&line, end))
}

fn main(rt: HostRuntime) -> io::Result<()> {
    if tools::argument_count(&rt, 4) != 3 {
        return eprintln!(rt;
            "usage: listplate LISTING BOOK (a file - is standard input; /dev/null is an empty book)"
        );
    }
    let mut listing = [0; tools::LISTING];
    let Some(size) = tools::read_file(&rt, 1, &mut listing) else {
        return Ok(());
    };
    let mut plate = [0; PLATE_BYTES];
    tools::with_book(
        &rt,
        Counted::Lines,
        &mut plate,
        |book, plate| write_plate::write_plate(&listing[..size], book, plate),
        |plate| print(&rt, plate),
    )
}
