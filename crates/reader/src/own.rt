// The own phrases of a plate: their number, and each phrase, judged against the book and the earlier ones and written as a line
// `phrase,TEXT`.
ghost use Rattle.std.specs.Prelude.{◌≡◌, [], ◌+◌, ◌*◌, ◌≤◌, length};
ghost use Rattle.causes.specs.Limits.{most_own, most_plate_bytes};
ghost use Rattle.output.specs.Pour.{pour, poured};
ghost use Rattle.phrases.specs.Lookup.{book_texts};
ghost use Rattle.phrases.specs.Index.{Indexed, with_own};
ghost use Rattle.phrases.specs.Own.{OwnKept};
ghost use Rattle.plate.specs.Plate.{own_count, own_from};
ghost use Rattle.fields.specs.Places.{place_at, field_read, until_etx, values_of, Known};
ghost use Rattle.reader.specs.Own.{has_own, OwnRoom, phrase_line, own_phrases, own_read, OwnThere, own_lines, own_until, own_counted, line_bytes};

use causes::Refusal;
use fields::{Field, read_plain};
use phrase_lookup::Lookup;
use plate_characters::copy_each;
use plate_texts::read_spelled;

// Whether a plate has own phrases: its first bit is 1.
pub fn has_own(plate: &[u8]) -> bool
    ensures { result ≡ has_own plate.now }
{
    plate.first().is_some_and(|byte| 128 <= *byte)
}

// How many own phrases there are: a bit, and 5 bits for their number less one.
fn read_count(plate: &[u8], at: usize) -> Result<Field<usize>, Refusal>
    requires { length plate.now ≤ most_plate_bytes }
    ensures { field_read plate.now result ≡ own_count (place_at plate.now at) }
{
    let Field { value: bit, next } = read_plain(plate, at, 1)?;
    if bit == 0 {
        return Ok(Field { value: 0, next });
    }
    let Field { value: less, next } = read_plain(plate, next, 5)?;
    Ok(Field {
        value: less + 1,
        next,
    })
}

// A line `phrase,TEXT` of the characters from a bit on, up to ETX.
fn put_phrase(plate: &[u8], bit: usize, own: &mut [u8], at: usize) -> usize
    requires { (length plate.now ≤ most_plate_bytes) × Known (until_etx 7 (place_at plate.now bit)) }
    ensures { (result, own.new) ≡ poured at (phrase_line (values_of (until_etx 7 (place_at plate.now bit)))) own.old }
{
    let text_at = text_out::put(own, at, b"phrase,");
    let copied = copy_each(plate, bit, 7, own, text_at);
    text_out::put_byte(own, copied.end, b'\n')
}

// So many own phrases from a bit on, each with its number behind the index of the book. `own` has room for a line of 72 bytes for each.
fn read_phrases(
    plate: &[u8],
    at: usize,
    count: usize,
    index: &mut [u32],
    book: &[u8],
    own: &mut [u8],
) -> Result<Field<usize>, Refusal>
    requires { (length plate.now ≤ most_plate_bytes) × Indexed index.old book.now × (with_own + length (book_texts book.now) ≤ length index.old) × (count ≤ most_own) × (line_bytes * count ≤ length own.old) }
    ensures result_after { own_read plate.now own.new result ≡ own_from (book_texts book.now) [] count (place_at plate.now at) }
    ensures own_there { OwnThere index.new book.now own.new result }
    ensures own_after { own.new ≡ pour 0 (own_lines (own_until (book_texts book.now) [] count (place_at plate.now at))) own.old }
    ensures own_kept { OwnKept book.now index.old index.new }
{
    let mut bit = at;
    let mut end = 0;
    for k in 0..count {
        let text = read_spelled(plate, bit, &Lookup::new(index, book, own, k))?;
        let start = end + 7;
        end = put_phrase(plate, bit, own, end);
        phrase_lookup::enter_own(index, k, start, &own[start..end - 1]);
        bit = text.next;
    }
    Ok(Field {
        value: count,
        next: bit,
    })
}

// The own phrases of a plate, as lines at the front of `own`: those that are read before the first refusal. Nothing else changes there.
pub fn read_own(
    plate: &[u8],
    index: &mut [u32],
    book: &[u8],
    own: &mut [u8],
) -> Result<Field<usize>, Refusal>
    requires { (length plate.now ≤ most_plate_bytes) × Indexed index.old book.now × (with_own + length (book_texts book.now) ≤ length index.old) × OwnRoom plate.now own.old }
    ensures result_after { own_read plate.now own.new result ≡ own_phrases (book_texts book.now) (place_at plate.now 0) }
    ensures own_there { OwnThere index.new book.now own.new result }
    ensures own_after { own.new ≡ pour 0 (own_lines (own_counted (book_texts book.now) (own_count (place_at plate.now 0)))) own.old }
    ensures own_kept { OwnKept book.now index.old index.new }
{
    let Field { value: count, next } = read_count(plate, 0)?;
    read_phrases(plate, next, count, index, book, own)
}
