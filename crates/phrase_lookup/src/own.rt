// The own phrases by their numbers, which stand behind the index of the book.
ghost use Rattle.std.specs.Prelude.{◌≡◌, ◌+◌, ◌<◌, length, get_or, set};
ghost use Rattle.phrases.specs.Phrases as phrases;
ghost use Rattle.phrases.specs.Lookup.{own_texts};
ghost use Rattle.phrases.specs.Index.{key, Indexed, entries_at};
ghost use Rattle.phrases.specs.Own.{own_number, own_text, OwnAt, OwnNumbers, own_places, own_sizes};

use phrases::{ENTRIES_AT, OWN_KEYS, OWN_PLACES, OWN_SIZES, count_of, key_of};

// Enters the number of own phrase k, whose text starts at a place.
pub fn enter_own(index: &mut [u32], k: usize, at: usize, text: &[u8])
    requires { (entries_at + get_or index.old 0 0 + k < length index.old) × (at < own_places) × (length text.now < own_sizes) }
    ensures { index.new ≡ set index.old (entries_at + get_or index.old 0 0 + k) (own_number at text.now) }
{
    let place = ENTRIES_AT + count_of(index) + k;
    index[place] = ((key_of(text) % OWN_KEYS * OWN_SIZES + text.len()) * OWN_PLACES + at) as u32;
}

// The number of own phrase k.
fn number_of(index: &[u32], k: usize) -> usize
    requires { entries_at + get_or index.now 0 0 + k < length index.now }
    ensures { result ≡ get_or index.now (entries_at + get_or index.now 0 0 + k) 0 }
{
    index[ENTRIES_AT + index[0] as usize + k] as usize
}

// Own phrase k, which stands where its number says.
pub fn own_at<'a, 'b, 'c>(index: &'b [u32], book: &'c [u8], own: &'a [u8], k: usize) -> &'a [u8]
    requires { Indexed index.now book.now × OwnAt index.now book.now own.now k }
    ensures { result.now ≡ own_text own.now k }
{
    let number = number_of(index, k);
    let a = number % OWN_PLACES;
    let e = a + number / OWN_PLACES % OWN_SIZES;
    &own[a..e]
}

// The place of a text, of this key, among the first `count` own phrases. It is compared only with those whose number has its key and length.
// A number has seven bits for the length, as own phrases are shorter than 128 bytes.
pub fn find_own(
    index: &[u32],
    book: &[u8],
    own: &[u8],
    count: usize,
    weight: usize,
    text: &[u8],
) -> Option<usize>
    requires { Indexed index.now book.now × OwnNumbers index.now book.now own.now count × (weight ≡ key text.now) }
    ensures { result ≡ phrases.place (own_texts count own.now) text.now }
{
    let sign = weight % OWN_KEYS * OWN_SIZES + text.len() % OWN_SIZES;
    let first = ENTRIES_AT + count_of(index);
    let numbers = &index[first..first + count];
    for (k, &number) in numbers.iter().enumerate() {
        if number as usize / OWN_PLACES == sign
            && text_parts::same(text, own_at(index, book, own, k))
        {
            return Some(k);
        }
    }
    None
}
