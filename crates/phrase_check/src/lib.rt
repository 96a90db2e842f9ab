// The check of a phrase book, line by line, which makes its index.
// `check_book` takes any bytes, and 385 numbers for the index. Its contract says the whole answer by definitions of crate phrases:
// specs/Book.antt says what a book holds and which line is its first bad one, specs/Index.antt what the index is.
#![tactic(auto)]

mod check;
mod numbers;

pub use check::check_book;
