// The check of a whole guide or listing, line by line.
// `check` takes any book, with its index, and any text, and answers how many own phrases and instructions the text has, or its refusal:
// 2 before the lines, the lowest of 3 to 7 and 9 at the first line that has one, 7 at the end for an open if.
// Its contract says the whole answer by a definition: specs/Check.antt of crate lines says what the check finds.
// Texts are never copied: the own phrases are the texts of a listing's first lines, so that how many there are is all that is held of them
// (specs/Held.antt). The number of each is entered behind the index of the book (specs/Numbers.antt), for the lookups that follow.
#![tactic(auto)]

mod checking;
mod fault;
mod numbers;
mod seen;

pub use checking::check;
