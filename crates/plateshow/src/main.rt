// Reads a guide on standard input, with an empty book, and prints its listing and its plate, or its refusal.
// A guide of more than 16,384 bytes is refused whatever it holds, so that 16,385 bytes of it are enough.
#![tactic(auto)]

use std::io;

fn main(rt: HostRuntime) -> io::Result<()> {
    let mut guide = [0; tools::GUIDE];
    let length = tools::read_full(&mut rt.stdin(), &mut guide)?;
    show::print_shown(&rt, &guide[..length], &mut [0; show::OUTPUT])
}
