// The index of a book: a text's key, the text of an entry, and a text found along the links of its list.
ghost use Rattle.std.specs.Prelude.{◌≡◌, [], ◌+◌, ◌<◌, length, take, get_or};
ghost use Rattle.text.specs.Parts.{same};
ghost use Rattle.phrases.specs.Phrases as phrases;
ghost use Rattle.phrases.specs.Lookup.{book_texts};
ghost use Rattle.phrases.specs.Index.{key, behind, Indexed};

use crate::layout::{
    ENTRIES_AT, ENTRY_KEYS, ENTRY_PARTS_AT, ENTRY_PLACES, ENTRY_TEXTS, LISTS, SECOND_ENTRY_AT,
};

// The key of a text, from its first 64 bytes.
pub fn key_of(text: &[u8]) -> usize
    ensures { result ≡ key text.now }
{
    let front = &text[..text.len().min(64)];
    let mut sum = 0;
    for (i, &b) in front.iter().enumerate() {
        sum += b as usize * (i + 1);
    }
    sum
}

// Where text k ends: one before the next text, or one before the book's end.
fn end_of(index: &[u32], book: &[u8], k: usize) -> usize
    requires { Indexed index.now book.now × (k < length (book_texts book.now)) }
    ensures { result ≡ behind 0 (take k (book_texts book.now)) + length (get_or (book_texts book.now) k []) }
{
    if k + 1 < index[0] as usize {
        index[SECOND_ENTRY_AT + k] as usize % ENTRY_PLACES - 1
    } else {
        book.len() - 1
    }
}

// Text k of the book, which starts at its entry's place.
pub fn text_of<'a, 'b>(index: &'b [u32], book: &'a [u8], k: usize) -> &'a [u8]
    requires { Indexed index.now book.now × (k < length (book_texts book.now)) }
    ensures { result.now ≡ get_or (book_texts book.now) k [] }
{
    let a = index[ENTRIES_AT + k] as usize % ENTRY_PLACES;
    let e = end_of(index, book, k);
    &book[a..e]
}

// Whether a text, of this key, is text k: the two are compared where the entry has the text's part of the key.
fn is_at(index: &[u32], book: &[u8], k: usize, weight: usize, text: &[u8]) -> bool
    requires { Indexed index.now book.now × (k < length (book_texts book.now)) × (weight ≡ key text.now) }
    ensures { result ≡ same text.now (get_or (book_texts book.now) k []) }
{
    index[ENTRIES_AT + k] as usize / ENTRY_PARTS_AT == weight / LISTS % ENTRY_KEYS
        && text_parts::same(text, text_of(index, book, k))
}

// The place from 0 of a text, of this key, among the lines of a book that end in LF: from the last text of its list to the one before, and so on.
pub fn find_keyed(index: &[u32], book: &[u8], weight: usize, text: &[u8]) -> Option<usize>
    requires { Indexed index.now book.now × (weight ≡ key text.now) }
    ensures { result ≡ phrases.place (book_texts book.now) text.now }
{
    let mut next = index[weight % LISTS + 1] as usize;
    while next != 0 {
        if is_at(index, book, next - 1, weight, text) {
            return Some(next - 1);
        }
        next = index[LISTS + next] as usize / ENTRY_PLACES % ENTRY_TEXTS;
    }
    None
}
