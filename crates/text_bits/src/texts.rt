// Texts: spelled, or as the place of a phrase.
ghost use Rattle.std.specs.Prelude.{◌≡◌, ◌++◌, ◌*◌, ◌^◌, ◌≤◌, ◌<◌, length};
ghost use Rattle.causes.specs.Limits.{most_plate_bytes};
ghost use Rattle.output.specs.Pour.{poured};
ghost use Rattle.bits.specs.Bits.{bits_of, bytes_bits};
ghost use Rattle.text.specs.Parts.{comma, parts_from};
ghost use Rattle.text.specs.Text.{Text};
ghost use Rattle.phrases.specs.Phrases.{find};
ghost use Rattle.phrases.specs.Lookup.{found_answer};
ghost use Rattle.plate.specs.Writing.{spelled_bits, spelled_text, text_bits, texts_bits};

use phrase_lookup::Lookup;
use phrases::{Found, width_of};

// The character that ends a spelled text.
const ETX: usize = 3;

// A text of so many characters of 7 bits is written at once, with what goes before it and ETX.
const SHORT: usize = 5;

// The lowest `width` bits of each of some characters, as one number.
fn joined(width: usize, group: &[u8]) -> usize
    requires { (width ≤ 8) × (length group.now * width ≤ 56) }
    ensures value { (rest : Text) → spelled_bits width (group.now ++ rest) ≡ bits_of (length group.now * width) result ++ spelled_bits width rest }
    ensures below { result < 2 ^ (length group.now * width) }
{
    let unit: usize = 1 << width;
    let mut value = 0;
    for &c in group {
        value = value * unit + c as usize % unit;
    }
    value
}

// The characters of a text in `width` bits each, as many at a time as 56 bits have room for, then ETX.
pub fn put_spelled(out: &mut [u8], at: usize, width: usize, text: &[u8]) -> usize
    requires { (length out.old ≤ most_plate_bytes) × (0 < width) × (width ≤ 8) }
    ensures { (result, bytes_bits out.new) ≡ poured at (spelled_bits width text.now) (bytes_bits out.old) }
{
    let mut end = at;
    for group in text.chunks(56 / width) {
        end = bits_out::put_bits(out, end, group.len() * width, joined(width, group));
    }
    bits_out::put_bits(out, end, width, ETX)
}

// `width` bits of a number, then the lowest `places` bits of another, as one number.
fn put_behind(
    out: &mut [u8],
    at: usize,
    width: usize,
    front: usize,
    places: usize,
    i: usize,
) -> usize
    requires { (width ≤ 11) × (front < 2048) × (places ≤ 45) }
    ensures { (result, bytes_bits out.new) ≡ poured at (bits_of width front ++ bits_of places i) (bytes_bits out.old) }
{
    let unit: usize = 1 << places;
    bits_out::put_bits(out, at, width + places, front * unit + i % unit)
}

// What goes before a phrase, `width` bits of a number; then 10, where both the book and the own phrases have some a bit that is 0 for the book
// and 1 for own, and the phrase's place, all as one number.
fn put_place(
    out: &mut [u8],
    at: usize,
    width: usize,
    front: usize,
    found: Found,
    known: &Lookup,
) -> usize
    requires { (width ≤ 8) × (front < 256) }
    ensures { (t : Text) → found_answer (find known.now t) ≡ Some found → (result, bytes_bits out.new) ≡ poured at (bits_of width front ++ text_bits known.now t) (bytes_bits out.old) }
{
    let book = known.book_count();
    let own = known.own_count();
    let (source, places, i) = match found {
        Found::InBook(i) => (0, width_of(book), i),
        Found::InOwn(i) => (1, width_of(own), i),
    };
    let coded = front * 4 + 2;
    if book == 0 || own == 0 {
        put_behind(out, at, width + 2, coded, places, i)
    } else {
        put_behind(out, at, width + 3, coded * 2 + source, places, i)
    }
}

// What goes before an ASCII text, `width` bits of a number; then 00 and the text in 7 bits: all as one number where the text is short.
fn put_ascii(out: &mut [u8], at: usize, width: usize, front: usize, text: &[u8]) -> usize
    requires { (length out.old ≤ most_plate_bytes) × (width ≤ 8) × (front < 256) }
    ensures { (result, bytes_bits out.new) ≡ poured at (bits_of width front ++ bits_of 2 0 ++ spelled_bits 7 text.now) (bytes_bits out.old) }
{
    if text.len() <= SHORT {
        let spelled = joined(7, text) * 128 + ETX;
        return put_behind(out, at, width + 2, front * 4, text.len() * 7 + 7, spelled);
    }
    let end = bits_out::put_bits(out, at, width + 2, front * 4);
    put_spelled(out, end, 7, text)
}

// What goes before a text that is no phrase, `width` bits of a number; then 00 and the text in 7 bits where it is ASCII, else 01 and the
// text in 8 bits.
fn put_new(out: &mut [u8], at: usize, width: usize, front: usize, text: &[u8]) -> usize
    requires { (length out.old ≤ most_plate_bytes) × (width ≤ 8) × (front < 256) }
    ensures { (result, bytes_bits out.new) ≡ poured at (bits_of width front ++ spelled_text text.now) (bytes_bits out.old) }
{
    if utf8::is_ascii(text) {
        put_ascii(out, at, width, front, text)
    } else {
        let end = bits_out::put_bits(out, at, width + 2, front * 4 + 1);
        put_spelled(out, end, 8, text)
    }
}

// What goes before a text, `width` bits of a number; then the text: a phrase's place where it is a phrase, else spelled.
pub fn put_text(
    out: &mut [u8],
    at: usize,
    width: usize,
    front: usize,
    text: &[u8],
    known: &Lookup,
) -> usize
    requires { (length out.old ≤ most_plate_bytes) × (width ≤ 8) × (front < 256) }
    ensures { (result, bytes_bits out.new) ≡ poured at (bits_of width front ++ text_bits known.now text.now) (bytes_bits out.old) }
{
    match known.find(text) {
        Some(found) => put_place(out, at, width, front, found, known),
        None => put_new(out, at, width, front, text),
    }
}

// The fields of a line from a place on, each a text.
pub fn put_texts(out: &mut [u8], at: usize, line: &[u8], from: usize, known: &Lookup) -> usize
    requires { length out.old ≤ most_plate_bytes }
    ensures { (result, bytes_bits out.new) ≡ poured at (texts_bits known.now (parts_from comma from line.now)) (bytes_bits out.old) }
{
    let mut end = at;
    let mut a = from;
    while a <= line.len() {
        let e = text::find(line, a, b',');
        end = put_text(out, end, 0, 0, &line[a..e], known);
        a = e + 1;
    }
    end
}
