// Tries the crates of phrases on the cases of its standard input: the check of a book, a text's place among the phrases, the text of a
// phrase, and the width of a place. Writes a line for each case; model/README.md has the format. A lookup in a
// bad book is answered with the book's first bad line. The numbers of the own phrases are entered before a lookup.
#![tactic(auto)]

ghost use Rattle.phrases.specs.Index.{Indexed};
ghost use Rattle.phrases.specs.Own.{OwnNumbers};
ghost use Rattle.std.specs.Prelude.{◌≤◌, length};

mod own;

use crate::own::enter_lines;
use phrase_lookup::phrase_text;
use phrases::Found;
use printed::{front, put_labelled, put_pairs};
use std::io;

// The check of a book. This and the functions below fill the line, and answer where it ends, without LF.
fn check(line: &mut [u8], s: &[u8], at: usize) -> usize {
    let mut index = [0u32; 449];
    match phrase_check::check_book(vectors::slice(s, at), &mut index) {
        Ok(count) => put_labelled(line, 0, b"Y,", count),
        Err(r) => put_labelled(line, 0, b"N,", r.place),
    }
}

// A list's number and a place in it.
fn place(line: &mut [u8], list: usize, place: usize) -> usize {
    let end = put_labelled(line, 0, b"Y,", list);
    put_labelled(line, end, b",", place)
}

// Where a text is a phrase.
fn find(line: &mut [u8], s: &[u8], at: usize) -> usize {
    let mut index = [0u32; 449];
    let second = vectors::past_slice(s, at);
    let third = vectors::past_slice(s, second);
    let count = vectors::long_number(s, third);
    let text = vectors::slice(s, third.saturating_add(8));
    let book = vectors::slice(s, at);
    match phrase_check::check_book(book, &mut index) {
        Err(r) => put_labelled(line, 0, b"N,", r.place),
        Ok(_) => found(
            line,
            &mut index,
            book,
            vectors::slice(s, second),
            count,
            text,
        ),
    }
}

// Where a text is a phrase, with a book that is checked.
fn found(
    line: &mut [u8],
    index: &mut [u32],
    book: &[u8],
    own: &[u8],
    count: usize,
    text: &[u8],
) -> usize
    requires { Indexed index.old book.now × (449 ≤ length index.old) }
{
    let n = enter_lines(index, book, own, count);
    match phrase_lookup::find_phrase(index, book, own, n, text) {
        Some(Found::InBook(i)) => place(line, 0, i),
        Some(Found::InOwn(i)) => place(line, 1, i),
        None => text_out::put_byte(line, 0, b'N'),
    }
}

// The text of a phrase by its place, where the book or the n own phrases have one there.
fn text_at<'a>(
    line: &mut [u8],
    index: &'a [u32],
    book: &'a [u8],
    own: &'a [u8],
    n: usize,
    is_own: bool,
    i: usize,
) -> usize
    requires { Indexed index.now book.now × OwnNumbers index.now book.now own.now n }
{
    if is_own && i < n {
        put_pairs(line, 0, phrase_text(index, book, own, true, i))
    } else if !is_own && i < phrases::count_of(index) {
        put_pairs(line, 0, phrase_text(index, book, own, false, i))
    } else {
        0
    }
}

// The text of a phrase, empty where there is none at the place.
fn text(line: &mut [u8], s: &[u8], at: usize) -> usize {
    let mut index = [0u32; 449];
    let second = vectors::past_slice(s, at);
    let third = vectors::past_slice(s, second);
    let is_own = vectors::number(s, third) == 1;
    let i = vectors::long_number(s, third.saturating_add(4));
    let book = vectors::slice(s, at);
    let own = vectors::slice(s, second);
    match phrase_check::check_book(book, &mut index) {
        Err(r) => put_labelled(line, 0, b"N,", r.place),
        Ok(_) => {
            let n = enter_lines(&mut index, book, own, 64);
            text_at(line, &index, book, own, n, is_own, i)
        }
    }
}

// The width of a place, among at most 65,536 phrases.
fn width(line: &mut [u8], s: &[u8], at: usize) -> usize {
    let count = vectors::number(s, at);
    if 65536 < count {
        return 0;
    }
    text_out::put_natural(line, 0, phrases::width_of(count))
}

// One case, by its kind.
fn case(line: &mut [u8], s: &[u8], kind: usize, at: usize) -> usize {
    match kind {
        0 => check(line, s, at),
        1 => find(line, s, at),
        2 => text(line, s, at),
        _ => width(line, s, at),
    }
}

// The place behind the two slices of a case.
fn past_two(s: &[u8], at: usize) -> usize {
    vectors::past_slice(s, vectors::past_slice(s, at))
}

// The place behind a case.
fn behind(s: &[u8], kind: usize, at: usize) -> usize {
    match kind {
        0 => vectors::past_slice(s, at),
        1 => vectors::past_slice(s, past_two(s, at).saturating_add(8)),
        2 => past_two(s, at).saturating_add(12),
        _ => at.saturating_add(4),
    }
}

// All cases, up to the end of what was read.
fn cases(rt: &impl Print, s: &[u8], line: &mut [u8]) -> io::Result<()> {
    vectors::each_place(s, |at| {
        let kind = vectors::number(s, at);
        let first = at.saturating_add(4);
        let end = case(line, s, kind, first);
        let end = text_out::put_byte(line, end, b'\n');
        rt.write_all(front(line, end))?;
        Ok(behind(s, kind, first))
    })
}

// The longest line has 129 bytes. A longer one than the buffer would be cut off, and differ.
fn main(rt: HostRuntime) -> io::Result<()> {
    let mut input = [0; vectors::CASES];
    let mut line = [0; 65536];
    let count = vectors::read_full(&mut rt.stdin(), &mut input);
    cases(&rt, &input[..count], &mut line)
}
