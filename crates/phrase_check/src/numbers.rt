// The numbers of an index: no texts, and one text more.
ghost use Rattle.std.specs.Prelude.{◌≡◌, [], ◌+◌, ◌*◌, ◌≤◌, ◌<◌, length, get_or, set};
ghost use Rattle.causes.specs.Limits.{most_phrases};
ghost use Rattle.output.specs.Pour.{pour};
ghost use Rattle.phrases.specs.Index.{list_of, part_of, index_of, book_numbers, entries_at, entry_places, entry_texts};

use phrases::{ENTRIES_AT, ENTRY_KEYS, ENTRY_PLACES, ENTRY_TEXTS, LISTS};

// Makes the index of no texts.
pub fn clear(index: &mut [u32])
    requires { book_numbers ≤ length index.old }
    ensures { index.new ≡ pour 0 (index_of []) index.old }
{
    index[..ENTRIES_AT].fill(0);
}

// Enters a text, of this key, that starts at a place, behind n others: it is the last of its list.
pub fn enter(index: &mut [u32], n: usize, at: usize, weight: usize)
    requires { (book_numbers ≤ length index.old) × (n < most_phrases) × (at < entry_places) × (get_or index.old (list_of weight + 1) 0 < entry_texts) }
    ensures { index.new ≡ set (set (set index.old 0 (n + 1)) (list_of weight + 1) (n + 1)) (entries_at + n) ((part_of weight * entry_texts + get_or index.old (list_of weight + 1) 0) * entry_places + at) }
{
    let list = weight % LISTS + 1;
    let before = index[list] as usize;
    index[0] = (n + 1) as u32;
    index[list] = (n + 1) as u32;
    index[ENTRIES_AT + n] = ((weight / LISTS % ENTRY_KEYS * ENTRY_TEXTS + before) * ENTRY_PLACES
        + at) as u32;
}
