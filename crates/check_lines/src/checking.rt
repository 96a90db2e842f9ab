// The check of a whole guide or listing.
ghost use Rattle.std.specs.Prelude.{◌≡◌, ℕ, ◌+◌, ◌≤◌, List, length};
ghost use Rattle.text.specs.Text.{Text};
ghost use Rattle.phrases.specs.Lookup.{book_texts};
ghost use Rattle.phrases.specs.Index.{entries_at, Indexed};
ghost use Rattle.phrases.specs.Own.{Listed, OwnKept};
ghost use Rattle.lines.specs.declared.Counts as counts;
ghost use Rattle.lines.specs.Line.{line_of};
ghost use Rattle.lines.specs.Check.{nothing_seen, check_from, at_end, lines_of, most_bytes};
ghost use Rattle.lines.specs.Answers.{seen_in, checked_answer};
ghost use Rattle.check_lines.specs.Numbers.{own_room};
ghost use Rattle.check_lines.specs.Held.{Sound, open_ifs, seen_of, judged};

use crate::fault::cause_of;
use crate::numbers::enter_phrase;
use crate::seen::{Seen, advance};
use causes::limits::{GUIDE_BYTES, LISTING_BYTES};
use causes::{Cause, Refusal};
use line_reader::read_line;
use lines::{Counts, Form, Head};
use phrase_lookup::Lookup;

// A guide or listing against this book, of which there is an index: 2 before the lines, then line by line, and 7 at the end. The numbers of
// a listing's own phrases stand behind the index afterwards; a guide has none.
pub fn check(form: Form, index: &mut [u32], book: &[u8], text: &[u8]) -> Result<Counts, Refusal>
    requires { Indexed index.old book.now × (entries_at + own_room form + length (book_texts book.now) ≤ length index.old) }
    ensures value { result ≡ checked_answer (seen_in form (book_texts book.now) text.now) }
    ensures by_index { (c : counts.Counts) → result ≡ Ok c → Listed index.new book.now text.now c.own }
    ensures own_kept { OwnKept book.now index.old index.new }
{
    if most_bytes(form) < text.len() {
        return Err(Refusal {
            cause: Cause::TooLong,
            place: 0,
        });
    }
    check_lines(form, index, book, text)
}

// How long a guide or listing may be.
fn most_bytes(form: Form) -> usize
    ensures { result ≡ most_bytes form }
{
    match form {
        Form::Guide => GUIDE_BYTES,
        Form::Listing => LISTING_BYTES,
    }
}

// The lines, of which n end before the place a.
fn check_lines(form: Form, index: &mut [u32], book: &[u8], text: &[u8]) -> Result<Counts, Refusal>
    requires { Indexed index.old book.now × (entries_at + own_room form + length (book_texts book.now) ≤ length index.old) }
    ensures value { result ≡ checked_answer (check_from (book_texts book.now) 1 nothing_seen (lines_of form text.now)) }
    ensures by_index { (c : counts.Counts) → result ≡ Ok c → Listed index.new book.now text.now c.own }
    ensures own_kept { OwnKept book.now index.old index.new }
{
    let mut opens = [0; 32];
    let mut s = Seen {
        own: 0,
        instructions: 0,
        depth: 0,
    };
    let mut n = 0;
    let mut a = 0;
    while a < text.len() {
        let e = text::find(text, a, b'\n');
        if e == text.len() {
            return Err(Refusal {
                cause: Cause::Byte,
                place: n + 1,
            });
        }
        let known = Lookup::new(index, book, text, s.own);
        let head = judge_line(form, &text[a..e], &known, s, &opens).map_err(|cause| Refusal {
            cause,
            place: n + 1,
        })?;
        enter_phrase(index, text, head, s.own, a, e);
        s = advance(n + 1, head, s, &mut opens);
        a = e + 1;
        n += 1;
    }
    at_end(s, &opens)
}

// A line behind the lines of which s holds and whose own phrases are known, or its lowest cause.
fn judge_line(
    form: Form,
    line: &[u8],
    known: &Lookup,
    s: Seen,
    opens: &[usize; 32],
) -> Result<Head, Cause>
    requires { Sound s opens.now }
    ensures { result ≡ judged known.now.book (seen_of known.now.own s opens.now) (line_of form line.now) }
{
    let head = read_line(form, line)?;
    cause_of(line, head, known, s, opens)?;
    Ok(head)
}

// Behind the last line: 7, at the line of the innermost if, where one is open.
fn at_end(s: Seen, opens: &[usize; 32]) -> Result<Counts, Refusal>
    requires { Sound s opens.now }
    ensures { (own : List Text) → length own ≡ s.own → result ≡ checked_answer (at_end (open_ifs s.depth opens.now) (seen_of own s opens.now)) }
{
    if s.depth != 0 {
        return Err(Refusal {
            cause: Cause::Nesting,
            place: opens[s.depth - 1],
        });
    }
    Ok(Counts {
        own: s.own,
        instructions: s.instructions,
    })
}
