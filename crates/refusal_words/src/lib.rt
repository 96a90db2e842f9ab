// Plain words for a refusal, as the tools tell it. specs/Words.antt says them.
// `put_words` stores as far as the buffer goes, from a place on, and answers where its writing ends (crate output).
#![tactic(auto)]

ghost use Rattle.std.specs.Prelude.{◌≡◌, ◌++◌};
ghost use Rattle.text.specs.Quoted.{bytes};
ghost use Rattle.decimals.specs.Number.{decimalℕ};
ghost use Rattle.output.specs.Pour.{poured};
ghost use Rattle.refusal_words.specs.Words.{place_of, place_words, cause_words, words_line};

use causes::{Cause, Refusal};
use text_out::put;

// What a place counts: the lines of a guide or listing, or the bits of a plate.
#[derive(Clone, Copy, Debug, PartialEq, Eq)]
pub enum Counted {
    Lines,
    Bits,
}

// What the place of a refusal is.
#[derive(Clone, Copy, Debug, PartialEq, Eq)]
pub enum Place {
    Nowhere,
    BookLine,
    Line,
    Bit,
}

// What the place of a cause is. That of a skip is a line of a listing or a bit of a plate.
fn place_of(counted: Counted, cause: Cause) -> Place
    ensures { result ≡ place_of counted cause }
{
    match cause {
        Cause::Book => Place::BookLine,
        Cause::TooLong | Cause::PlateTooLong | Cause::TooShort => Place::Nowhere,
        Cause::Byte | Cause::Kind | Cause::Value => Place::Line,
        Cause::Phrase | Cause::Nesting | Cause::Instructions => Place::Line,
        Cause::Skip => match counted {
            Counted::Lines => Place::Line,
            Counted::Bits => Place::Bit,
        },
        Cause::PlateEnds | Cause::Unused | Cause::Spelling | Cause::Filling => Place::Bit,
    }
}

// A place's words, its number and a colon.
fn put_numbered(out: &mut [u8], at: usize, words: &[u8], n: usize) -> usize
    ensures { (result, out.new) ≡ poured at ((words.now ++ decimalℕ n) ++ bytes ": ") out.old }
{
    let end = put(out, at, words);
    let end = text_out::put_natural(out, end, n);
    put(out, end, b": ")
}

// Where it is.
fn put_place(out: &mut [u8], at: usize, place: Place, n: usize) -> usize
    ensures { (result, out.new) ≡ poured at (place_words place n) out.old }
{
    match place {
        Place::Nowhere => at,
        Place::BookLine => put_numbered(out, at, b"phrase book, line ", n),
        Place::Line => put_numbered(out, at, b"line ", n),
        Place::Bit => put_numbered(out, at, b"bit ", n),
    }
}

// What the cause is.
fn cause_words(cause: Cause) -> &'static [u8]
    ensures { result.now ≡ cause_words cause }
{
    match cause {
        Cause::Book => b"over 256 phrases, a bad or repeated text, or no last LF",
        Cause::TooLong => b"guide over 16,384 bytes, or listing over 327,680",
        Cause::Byte => b"byte not allowed, or last line without LF",
        Cause::Kind => b"unknown kind or wrong count of fields",
        Cause::Value => b"field value outside its rule",
        Cause::Phrase => b"phrase in a guide, late, 33rd, or repeated",
        Cause::Nesting => b"else or fi without its if, second else, 17th level, or if left open",
        Cause::Skip => b"skip past the last instruction",
        Cause::Instructions => b"513th instruction",
        Cause::PlateTooLong => b"plate over 2,953 bytes",
        Cause::TooShort => b"output shorter than the result, or scratch too short",
        Cause::PlateEnds => b"plate ends inside a field",
        Cause::Unused => b"unused code, over 512 instructions, or phrase that isn't there",
        Cause::Spelling =>
            b"character not allowed, text of 0 or over 64, phrase spelled out or repeated, or 32 bits for a 16-bit constant",
        Cause::Filling => b"a one among the filling bits, or a whole spare byte",
    }
}

// The line of words for a refusal.
pub fn put_words(out: &mut [u8], at: usize, counted: Counted, r: Refusal) -> usize
    ensures { (result, out.new) ≡ poured at (words_line counted r.cause r.place) out.old }
{
    let end = put_place(out, at, place_of(counted, r.cause), r.place);
    let end = put(out, end, cause_words(r.cause));
    text_out::put_byte(out, end, b'\n')
}
