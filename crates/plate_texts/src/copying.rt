// Texts of a plate that were read before, copied into a lent buffer: they are not judged again.
ghost use Rattle.std.specs.Prelude.{◌≡◌, ◌+◌, ◌*◌, ◌≤◌, ◌<◌, length};
ghost use Rattle.causes.specs.Limits.{most_plate_bytes};
ghost use Rattle.bits.specs.Ahead.{ahead_in};
ghost use Rattle.output.specs.Pour.{poured};
ghost use Rattle.transcript.specs.Offered.{options_bytes};
ghost use Rattle.plate.specs.Reading.{got, many};
ghost use Rattle.plate.specs.Plate.{phrase};
ghost use Rattle.plate.specs.Plate as reader;
ghost use Rattle.fields.specs.Places.{place_at, end_with, count_read, values_of, Known};

use crate::Offered;
use crate::phrase_place::accepted_phrase;
use fields::{Copied, Field, read_plain};
use phrase_lookup::Lookup;
use plate_characters::{copy_characters, copy_each};

// A phrase.
fn copy_phrase(
    plate: &[u8],
    ahead: usize,
    at: usize,
    known: &Lookup,
    out: &mut [u8],
    from: usize,
) -> Copied
    requires { (length plate.now ≤ most_plate_bytes) × (0 < length known.now.book + length known.now.own) × (ahead ≡ ahead_in plate.now at) × (at + 2 ≤ length plate.now * 8) × Known (phrase known.now.book known.now.own (place_at plate.now (at + 2))) }
    ensures out_after { (result.end, out.new) ≡ poured from (values_of (phrase known.now.book known.now.own (place_at plate.now (at + 2)))) out.old }
    ensures next_value { got 0 (place_at plate.now result.next) ≡ end_with 0 (phrase known.now.book known.now.own (place_at plate.now (at + 2))) }
{
    let phrase = accepted_phrase(plate, ahead, at, known);
    let text = known.text(phrase.found);
    let end = text_out::put(out, from, text);
    Copied {
        end,
        next: phrase.next,
    }
}

// A text.
pub fn copy_text(plate: &[u8], at: usize, known: &Lookup, out: &mut [u8], from: usize) -> Copied
    requires { (length plate.now ≤ most_plate_bytes) × Known (reader.text known.now (place_at plate.now at)) }
    ensures out_after { (result.end, out.new) ≡ poured from (values_of (reader.text known.now (place_at plate.now at))) out.old }
    ensures next_value { got 0 (place_at plate.now result.next) ≡ end_with 0 (reader.text known.now (place_at plate.now at)) }
{
    let ahead = bits_ahead::read_ahead(plate, at);
    match bits_ahead::part_ahead(ahead, 0, 2) {
        0 => copy_characters(plate, at + 2, out, from),
        1 => copy_each(plate, at + 2, 8, out, from),
        _ => copy_phrase(plate, ahead, at, known, out, from),
    }
}

// n texts, each behind a comma.
fn copy_texts(
    plate: &[u8],
    at: usize,
    n: usize,
    known: &Lookup,
    out: &mut [u8],
    from: usize,
) -> Copied
    requires { (length plate.now ≤ most_plate_bytes) × Known (many (λ j. reader.text known.now) n (place_at plate.now at)) }
    ensures out_after { (result.end, out.new) ≡ poured from (options_bytes (values_of (many (λ j. reader.text known.now) n (place_at plate.now at)))) out.old }
    ensures next_value { got n (place_at plate.now result.next) ≡ end_with n (many (λ j. reader.text known.now) n (place_at plate.now at)) }
{
    let mut end = from;
    let mut bit = at;
    for _ in 0..n {
        let text_at = text_out::put_byte(out, end, b',');
        let copied = copy_text(plate, bit, known, out, text_at);
        end = copied.end;
        bit = copied.next;
    }
    Copied { end, next: bit }
}

// The options of inputs: their number less two, and as many texts.
pub fn copy_options(plate: &[u8], at: usize, known: &Lookup, out: &mut [u8], from: usize) -> Offered
    requires { (length plate.now ≤ most_plate_bytes) × Known (reader.options known.now (place_at plate.now at)) }
    ensures out_after { (result.end, out.new) ≡ poured from (options_bytes (values_of (reader.options known.now (place_at plate.now at)))) out.old }
    ensures next_value { got result.options (place_at plate.now result.next) ≡ count_read (reader.options known.now (place_at plate.now at)) }
{
    // Never refused: the options were read before.
    let Ok(
        Field {
            value: less,
            next: bit,
        },
    ) = read_plain(plate, at, 3)
    else {
        return Offered {
            options: 0,
            end: from,
            next: at,
        };
    };
    let options = less + 2;
    let copied = copy_texts(plate, bit, options, known, out, from);
    Offered {
        options,
        end: copied.end,
        next: copied.next,
    }
}
