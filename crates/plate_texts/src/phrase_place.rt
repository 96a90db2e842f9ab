// A phrase by its place: in the book, or among the own phrases. It is judged where it is read first; where it was read before, no more.
// The 25 bits from the code of its text on are read ahead: a phrase lies in them, behind the two bits of the code.
ghost use Rattle.std.specs.Prelude.{◌≡◌, ◌≢◌, ◌+◌, ◌*◌, ◌≤◌, ◌<◌, length, ltb, Ok, MatchOption};
ghost use Rattle.causes.specs.Limits.{most_phrases, most_plate_bits, most_plate_bytes};
ghost use Rattle.causes.specs.declared.Cause.TheVariants.{Unused};
ghost use Rattle.bits.specs.Ahead.{ahead_in, part_ahead};
ghost use Rattle.output.specs.Pour.{up_to};
ghost use Rattle.phrases.specs.Phrases.{width};
ghost use Rattle.phrase_lookup.specs.Found.{Has, phrase_at};
ghost use Rattle.plate.specs.Reading.{Place, got, number, judged};
ghost use Rattle.plate.specs.Plate.{phrase};
ghost use Rattle.fields.specs.Places.{place_at, field_read, measured, Known};
ghost use Rattle.plate_texts.specs.Sources.{source, source_by, source_read, place_in};

use causes::{Cause, Refusal};
use fields::{Field, plain_ahead};
use phrase_lookup::Lookup;
use phrases::Found;

// The place of a phrase among n, in the fewest bits that number them, k bits behind the code.
fn read_place(
    plate: &[u8],
    ahead: usize,
    at: usize,
    k: usize,
    n: usize,
) -> Result<Field<usize>, Refusal>
    requires { (length plate.now ≤ most_plate_bytes) × (ahead ≡ ahead_in plate.now at) × (at + k < 18446744073709551616) × (k ≤ 3) × (n ≤ most_phrases) }
    ensures { field_read plate.now result ≡ judged (number (width n)) (λ i. ltb i n) Unused (place_at plate.now (at + k)) }
{
    let field = plain_ahead(plate, ahead, at, k, phrases::width_of(n))?;
    if field.value < n {
        Ok(field)
    } else {
        Err(Refusal {
            cause: Cause::Unused,
            place: at + k,
        })
    }
}

// Which phrases a place is among: the book's or the own ones, how many they are, and the bits from the code to the place.
#[derive(Clone, Copy, Debug, PartialEq, Eq)]
pub struct Source {
    pub own: bool,
    pub n: usize,
    pub k: usize,
}

// The source where only one of the two has phrases: the place follows the code.
fn only_source(texts: usize, count: usize) -> Option<Source>
    ensures { MatchOption result ((texts ≢ 0) × (count ≢ 0)) (λ s. (s.k ≡ 2) × ((p : Place) → got (s.own, s.n) p ≡ source texts count p)) }
{
    if texts == 0 {
        Some(Source {
            own: true,
            n: count,
            k: 2,
        })
    } else if count == 0 {
        Some(Source {
            own: false,
            n: texts,
            k: 2,
        })
    } else {
        None
    }
}

// The source that the bit behind the code says, where both have phrases: the book or the own ones.
fn source_by(bit: usize, texts: usize, count: usize) -> Source
    ensures { ((result.own, result.n) ≡ source_by texts count bit) × (result.k ≡ 3) }
{
    if bit == 0 {
        Source {
            own: false,
            n: texts,
            k: 3,
        }
    } else {
        Source {
            own: true,
            n: count,
            k: 3,
        }
    }
}

// The source of a phrase: one bit for book or own, where both have phrases.
fn read_source(
    plate: &[u8],
    ahead: usize,
    at: usize,
    texts: usize,
    count: usize,
) -> Result<Source, Refusal>
    requires { (length plate.now ≤ most_plate_bytes) × (ahead ≡ ahead_in plate.now at) × (at + 2 < 18446744073709551616) }
    ensures { source_read plate.now at result ≡ source texts count (place_at plate.now (at + 2)) }
{
    if let Some(source) = only_source(texts, count) {
        return Ok(source);
    }
    let bit = plain_ahead(plate, ahead, at, 2, 1)?.value;
    Ok(source_by(bit, texts, count))
}

// The phrase at a place among those of a source.
fn found_in(source: Source, place: usize) -> Found
    ensures { result ≡ place_in source.own place }
{
    if source.own {
        Found::InOwn(place)
    } else {
        Found::InBook(place)
    }
}

// The size of a phrase, added to that of what stands before it, and the bit behind it: its source, and its place there, which is judged.
pub fn pass_phrase(
    plate: &[u8],
    ahead: usize,
    at: usize,
    known: &Lookup,
    front: usize,
) -> Result<Field<usize>, Refusal>
    requires { (length plate.now ≤ most_plate_bytes) × (0 < length known.now.book + length known.now.own) × (ahead ≡ ahead_in plate.now at) × (at + 2 ≤ length plate.now * 8) }
    ensures { field_read plate.now result ≡ measured (λ t. up_to (front + length t)) (phrase known.now.book known.now.own (place_at plate.now (at + 2))) }
{
    let source = read_source(plate, ahead, at, known.book_count(), known.own_count())?;
    let Field { value: place, next } = read_place(plate, ahead, at, source.k, source.n)?;
    let text = known.text(found_in(source, place));
    Ok(Field {
        value: output::sum(front, text.len()),
        next,
    })
}

// The source of a phrase that was read before: nothing is judged again.
fn accepted_source(plate: &[u8], ahead: usize, at: usize, texts: usize, count: usize) -> Source
    requires { (ahead ≡ ahead_in plate.now at) × Known (source texts count (place_at plate.now (at + 2))) }
    ensures { source_read plate.now at (Ok result) ≡ source texts count (place_at plate.now (at + 2)) }
{
    match only_source(texts, count) {
        Some(source) => source,
        None => source_by(bits_ahead::part_ahead(ahead, 2, 1), texts, count),
    }
}

// A phrase, and the bit behind it.
#[derive(Clone, Copy, Debug, PartialEq, Eq)]
pub struct PhraseAt {
    pub found: Found,
    pub next: usize,
}

// A phrase that was read before: its place is not judged again.
pub fn accepted_phrase(plate: &[u8], ahead: usize, at: usize, known: &Lookup) -> PhraseAt
    requires { (length plate.now ≤ most_plate_bytes) × (0 < length known.now.book + length known.now.own) × (ahead ≡ ahead_in plate.now at) × (at + 2 ≤ length plate.now * 8) × Known (phrase known.now.book known.now.own (place_at plate.now (at + 2))) }
    ensures next_value { got (phrase_at known.now result.found) (place_at plate.now result.next) ≡ phrase known.now.book known.now.own (place_at plate.now (at + 2)) }
    ensures there { Has known.now result.found }
{
    let source = accepted_source(plate, ahead, at, known.book_count(), known.own_count());
    let width = phrases::width_of(source.n);
    let place = bits_ahead::part_ahead(ahead, source.k, width);
    PhraseAt {
        found: found_in(source, place),
        next: at + source.k + width,
    }
}
