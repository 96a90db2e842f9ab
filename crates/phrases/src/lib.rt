// Phrases: definitions of the lent phrase book, of a listing's or plate's own phrases and of the place of a text among both, with their laws;
// the index of a book, read; the width of a place.
// specs/Book.antt says what a book holds and which line is its first bad one; specs/Phrases.antt how a text is found, and how many
// bits a place takes; specs/Lookup.antt where the phrases stand: the book's lines, and the first lines `phrase,TEXT` of another text;
// specs/Index.antt what the index of a book is; specs/Own.antt the numbers of own phrases behind it.
// Each contract says the whole answer by a definition of specs/. `width_of` takes at most 65,536 phrases.
// `text_of` returns a part of the book, never a copy; it takes a place only where there is a text.
#![tactic(auto)]

mod index;
mod layout;
mod numbers;
mod widths;

pub use index::{find_keyed, key_of, text_of};
pub use layout::{
    BOOK_NUMBERS, EMPTY_INDEX_NUMBERS, ENTRIES_AT, ENTRY_KEYS, ENTRY_PLACES, ENTRY_TEXTS,
    INDEX_NUMBERS, LISTS, OWN_KEYS, OWN_PLACES, OWN_SIZES,
};
pub use numbers::count_of;
pub use widths::width_of;

// Where a text is a phrase: its place from 0 in the book or among the own phrases.
#[derive(Clone, Copy, Debug, PartialEq, Eq)]
pub enum Found {
    InBook(usize),
    InOwn(usize),
}
