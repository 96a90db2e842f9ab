// platelist PLATE BOOK: prints the listing of a plate, given in hexadecimal; or its refusal.
// A plate of more than 2,953 bytes is refused whatever it holds, so that 2,954 bytes of it are enough. No accepted plate has a listing of
// more than 327,680 bytes.
#![tactic(auto)]

use causes::limits::LISTING_BYTES;
use refusal_words::Counted;
use std::io;

fn main(rt: HostRuntime) -> io::Result<()> {
    if tools::argument_count(&rt, 4) != 3 {
        return eprintln!(rt;
            "usage: platelist PLATE BOOK (a file - is standard input; /dev/null is an empty book)"
        );
    }
    let mut plate = [0; tools::PLATE];
    let Some(size) = tools::read_plate(&rt, 1, &mut plate) else {
        return Ok(());
    };
    let mut listing = [0; LISTING_BYTES];
    tools::with_book(
        &rt,
        Counted::Bits,
        &mut listing,
        |book, listing| read_plate::read_plate(&plate[..size], book, listing),
        |listing| rt.write_all(listing),
    )
}
