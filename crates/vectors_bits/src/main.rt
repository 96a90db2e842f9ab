// Tries the crates bits_in and bits_out on the cases of its standard input: numbers read, also 56 bits at once, and written at any bit,
// inside a buffer, across its end and far past it. Writes a line for each case; model/README.md has the format.
#![tactic(auto)]

ghost use Rattle.std.specs.Prelude.{◌≤◌};

use printed::front;
use std::io;

// A number behind Y. This and the functions below fill the line, and answer where it ends.
fn put_value(line: &mut [u8], value: usize) -> usize {
    let end = printed::put_labelled(line, 0, b"Y,", value);
    text_out::put_byte(line, end, b'\n')
}

// A number read: its value, or that the buffer ends.
fn read_number(line: &mut [u8], bytes: &[u8], place: usize, width: usize) -> usize
    requires { width ≤ 32 }
{
    match bits_in::read_number(bytes, place, width) {
        Some(value) => put_value(line, value as usize),
        None => text_out::put(line, 0, b"N\n"),
    }
}

// A case that reads.
fn read_case(line: &mut [u8], s: &[u8], start: usize) -> usize {
    let bytes = vectors::slice(s, start);
    let at = vectors::past_slice(s, start);
    let place = vectors::long_number(s, at);
    let width = vectors::number(s, at.saturating_add(8));
    if 32 < width {
        return 0;
    }
    read_number(line, bytes, place, width)
}

// A case that reads 56 bits: their value, or that fewer than eight bytes are left.
fn eight_case(line: &mut [u8], s: &[u8], start: usize) -> usize {
    let bytes = vectors::slice(s, start);
    let place = vectors::long_number(s, vectors::past_slice(s, start));
    match bits_in::read_eight(bytes, place) {
        Some(value) => put_value(line, value),
        None => text_out::put(line, 0, b"N\n"),
    }
}

// A number written into a lent buffer: the place behind it, and the whole buffer.
fn write_number(line: &mut [u8], out: &mut [u8], place: usize, width: usize, value: usize) -> usize
    requires { width ≤ 56 }
{
    vectors::fill(out);
    let behind = bits_out::put_bits(out, place, width, value);
    let end = text_out::put_natural(line, 0, behind);
    let end = text_out::put_byte(line, end, b',');
    let end = vectors::put_buffer(line, end, out);
    text_out::put_byte(line, end, b'\n')
}

// A case that writes, into the bytes of `space` that it lends.
fn write_case(line: &mut [u8], s: &[u8], at: usize, space: &mut [u8]) -> usize {
    let length = vectors::lent(space, vectors::number(s, at));
    let place = vectors::long_number(s, at.saturating_add(4));
    let width = vectors::number(s, at.saturating_add(12));
    let value = vectors::long_number(s, at.saturating_add(16));
    if 56 < width {
        return 0;
    }
    write_number(line, &mut space[..length], place, width, value)
}

// One case, by its kind.
fn case(line: &mut [u8], s: &[u8], kind: usize, at: usize, space: &mut [u8]) -> usize {
    match kind {
        0 => read_case(line, s, at),
        2 => eight_case(line, s, at),
        _ => write_case(line, s, at, space),
    }
}

// The place behind a case.
fn behind(s: &[u8], kind: usize, at: usize) -> usize {
    match kind {
        0 => vectors::past_slice(s, at).saturating_add(12),
        2 => vectors::past_slice(s, at).saturating_add(8),
        _ => at.saturating_add(24),
    }
}

// All cases, up to the end of what was read.
fn cases(rt: &impl Print, s: &[u8], space: &mut [u8], line: &mut [u8]) -> io::Result<()> {
    vectors::each_place(s, |at| {
        let kind = vectors::number(s, at);
        let first = at.saturating_add(4);
        let end = case(line, s, kind, first, space);
        rt.write_all(front(line, end))?;
        Ok(behind(s, kind, first))
    })
}

fn main(rt: HostRuntime) -> io::Result<()> {
    let mut input = [0; vectors::CASES];
    let mut space = [0; 4096];
    let mut line = [0; 4096];
    let count = vectors::read_full(&mut rt.stdin(), &mut input);
    cases(&rt, &input[..count], &mut space, &mut line)
}
