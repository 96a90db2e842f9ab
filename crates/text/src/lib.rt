// Text: definitions of its parts, which are lines or fields, and of a text and of well-formed UTF-8, with their laws; the search for a byte.
// The functions take any content of any length, and a place where they start: in the text or at its end. Each contract says the whole answer
// by a definition of specs/.
#![tactic(auto)]

mod search;

pub use search::find;
