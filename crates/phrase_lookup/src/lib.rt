// The phrases that a text may be, looked up: the place of a text among them, and the text of a phrase by its place.
// A `Lookup` holds a phrase book with its index and a listing's or plate's own phrases, whose numbers stand behind the index, so that a text is
// compared with few others; contracts see in it the phrases of crate phrases' specs/Phrases.antt. `enter_own` enters the number of an own phrase.
// The text of a phrase is a part of the book or of the own phrases, never a copy.
#![tactic(auto)]

mod lookup;
mod own;

pub use lookup::{Lookup, find_phrase, phrase_text};
pub use own::enter_own;
