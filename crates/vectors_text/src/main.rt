// Tries the crates of texts and numbers on the cases of its standard input: texts, letters, parts of a text, and decimal numbers read and
// written.
// Writes a line for each case; model/README.md has the format.
#![tactic(auto)]

use printed::front;
use std::io;

// Y or N.
fn letter(yes: bool) -> u8 {
    if yes { b'Y' } else { b'N' }
}

// Y or N as a line. This and the functions below fill the line, and answer where it ends.
fn put_yes(line: &mut [u8], yes: bool) -> usize {
    let end = text_out::put_byte(line, 0, letter(yes));
    text_out::put_byte(line, end, b'\n')
}

// Whether the bytes are allowed, and whether they are a text.
fn read_text(line: &mut [u8], s: &[u8], at: usize) -> usize {
    let bytes = vectors::slice(s, at);
    let end = text_out::put_byte(line, 0, letter(text_bytes::are_allowed(bytes)));
    let end = text_out::put_byte(line, end, b',');
    let end = text_out::put_byte(line, end, letter(text_bytes::is_text(bytes)));
    text_out::put_byte(line, end, b'\n')
}

// A part behind a comma.
fn put_part(line: &mut [u8], at: usize, part: &[u8]) -> usize {
    let end = text_out::put_byte(line, at, b',');
    printed::put_pairs(line, end, part)
}

// The parts from the first to the one behind the last, from a place of the line on.
fn each_part(line: &mut [u8], at: usize, bytes: &[u8], by: u8, count: usize) -> usize {
    let mut end = at;
    for k in 0..=count {
        end = put_part(line, end, text_parts::part(bytes, by, k));
    }
    end
}

// How many parts there are, and the parts.
fn read_parts(line: &mut [u8], s: &[u8], at: usize) -> usize {
    let by = vectors::byte(s, at);
    let bytes = vectors::slice(s, at.saturating_add(4));
    let count = text_parts::count_parts(bytes, by);
    let end = text_out::put_natural(line, 0, count);
    let end = each_part(line, end, bytes, by, count);
    text_out::put_byte(line, end, b'\n')
}

// Whether the fields from one on are texts.
fn read_texts(line: &mut [u8], s: &[u8], at: usize) -> usize {
    let from = vectors::long_number(s, at);
    let bytes = vectors::slice(s, at.saturating_add(8));
    put_yes(line, text_bytes::are_texts(bytes, from))
}

// A number up to a limit.
fn read_natural(line: &mut [u8], s: &[u8], at: usize) -> usize {
    let limit = vectors::number(s, at) as u32;
    let bytes = vectors::slice(s, at.saturating_add(4));
    let Some(value) = decimals::read_natural(bytes, limit) else {
        return put_yes(line, false);
    };
    let end = printed::put_labelled(line, 0, b"Y,", value as usize);
    text_out::put_byte(line, end, b'\n')
}

// A constant.
fn read_constant(line: &mut [u8], s: &[u8], at: usize) -> usize {
    let Some(value) = decimals::read_constant(vectors::slice(s, at)) else {
        return put_yes(line, false);
    };
    let end = text_out::put(line, 0, b"Y,");
    let end = text_out::put_number(line, end, value);
    text_out::put_byte(line, end, b'\n')
}

// Whether two slices hold the same bytes.
fn read_same(line: &mut [u8], s: &[u8], at: usize) -> usize {
    let one = vectors::slice(s, at);
    let other = vectors::slice(s, vectors::past_slice(s, at));
    put_yes(line, text_parts::same(one, other))
}

// The first place of a byte from a place on, which is at most the length.
fn read_find(line: &mut [u8], s: &[u8], at: usize) -> usize {
    let from = vectors::long_number(s, at);
    let byte = vectors::byte(s, at.saturating_add(8));
    let bytes = vectors::slice(s, at.saturating_add(12));
    if bytes.len() < from {
        return 0;
    }
    let end = text_out::put_natural(line, 0, text::find(bytes, from, byte));
    text_out::put_byte(line, end, b'\n')
}

// Whether the bytes are well-formed UTF-8.
fn read_letters(line: &mut [u8], s: &[u8], at: usize) -> usize {
    put_yes(line, utf8::well_formed(vectors::slice(s, at)))
}

// The line of a writer: the place behind what it wrote, and the whole lent buffer.
fn put_line(line: &mut [u8], place: usize, out: &[u8]) -> usize {
    let end = text_out::put_natural(line, 0, place);
    let end = text_out::put_byte(line, end, b',');
    let end = vectors::put_buffer(line, end, out);
    text_out::put_byte(line, end, b'\n')
}

// A number from 0 on, a number with its sign, or bytes, by the kind of a case, written into the lent buffer.
fn put_value(s: &[u8], kind: usize, at: usize, out: &mut [u8], place: usize) -> usize {
    match kind {
        5 => text_out::put_natural(out, place, vectors::number(s, at)),
        6 => text_out::put_number(out, place, vectors::signed(s, at)),
        _ => text_out::put(out, place, vectors::slice(s, at)),
    }
}

// A case that writes, into the bytes of `space` that it lends.
fn put_case(line: &mut [u8], s: &[u8], kind: usize, at: usize, space: &mut [u8]) -> usize {
    let length = vectors::lent(space, vectors::number(s, at));
    let place = vectors::long_number(s, at.saturating_add(4));
    let out = &mut space[..length];
    vectors::fill(out);
    let behind = put_value(s, kind, at.saturating_add(12), out, place);
    put_line(line, behind, out)
}

// One case, by its kind: kinds 5, 6 and 7 write into a buffer.
fn case(line: &mut [u8], s: &[u8], kind: usize, at: usize, space: &mut [u8]) -> usize {
    match kind {
        0 => read_text(line, s, at),
        1 => read_parts(line, s, at),
        2 => read_texts(line, s, at),
        3 => read_natural(line, s, at),
        4 => read_constant(line, s, at),
        8 => read_same(line, s, at),
        9 => read_find(line, s, at),
        10 => read_letters(line, s, at),
        _ => put_case(line, s, kind, at, space),
    }
}

// The place behind a case.
fn behind(s: &[u8], kind: usize, at: usize) -> usize {
    match kind {
        0 | 4 | 10 => vectors::past_slice(s, at),
        1 | 3 => vectors::past_slice(s, at.saturating_add(4)),
        2 => vectors::past_slice(s, at.saturating_add(8)),
        5 | 6 => at.saturating_add(16),
        8 => vectors::past_slice(s, vectors::past_slice(s, at)),
        _ => vectors::past_slice(s, at.saturating_add(12)),
    }
}

// All cases, up to the end of what was read.
fn cases(rt: &impl Print, s: &[u8], space: &mut [u8], line: &mut [u8]) -> io::Result<()> {
    vectors::each_place(s, |at| {
        let kind = vectors::number(s, at);
        let first = at.saturating_add(4);
        let end = case(line, s, kind, first, space);
        rt.write_all(front(line, end))?;
        Ok(behind(s, kind, first))
    })
}

// The longest line has 150 bytes. A longer one than the buffer would be cut off, and differ.
fn main(rt: HostRuntime) -> io::Result<()> {
    let mut input = [0; vectors::CASES];
    let mut space = [0; 4096];
    let mut line = [0; 65536];
    let count = vectors::read_full(&mut rt.stdin(), &mut input);
    cases(&rt, &input[..count], &mut space, &mut line)
}
