// The layout of an index of a book, and of the numbers of own phrases behind it, as specs/Index.antt and specs/Own.antt have it.

// The lists that keys name.
pub const LISTS: usize = 128;

// The number of texts and the lists stand in front of the entries.
pub const ENTRIES_AT: usize = 129;

pub const SECOND_ENTRY_AT: usize = 130;

// An index of any book. One of no texts has no entries.
pub const BOOK_NUMBERS: usize = 385;

// BOOK_NUMBERS and ENTRIES_AT, with room for the numbers of 32 own phrases.
pub const INDEX_NUMBERS: usize = 417;

pub const EMPTY_INDEX_NUMBERS: usize = 161;

// An entry has a part of a key, the number of a text, and a place in the book: how many of each there are, and where the part of the key
// begins.
pub const ENTRY_KEYS: usize = 256;

pub const ENTRY_TEXTS: usize = 512;

pub const ENTRY_PLACES: usize = 32768;

pub const ENTRY_PARTS_AT: usize = 16777216;

// The number of an own phrase has a part of its key, its length, and a place: how many of each there are.
pub const OWN_KEYS: usize = 8192;

pub const OWN_SIZES: usize = 128;

pub const OWN_PLACES: usize = 4096;
