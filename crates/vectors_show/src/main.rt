// Shows the guides of its standard input, one after the other, as the program plateshow does: the worked cases, the guides of the folder
// examples, every cause, every limit of a guide, and random guides. model/README.md has the format.
#![tactic(auto)]

use std::io;

// All guides, up to the end of what was read.
fn guides(rt: &impl Print, s: &[u8]) -> io::Result<()> {
    vectors::each_place(s, |at| {
        show::print_shown(rt, vectors::slice(s, at), &mut [0; show::OUTPUT])?;
        Ok(vectors::past_slice(s, at))
    })
}

fn main(rt: HostRuntime) -> io::Result<()> {
    let mut input = [0; vectors::CASES];
    let count = vectors::read_full(&mut rt.stdin(), &mut input);
    guides(&rt, &input[..count])
}
