// The check of a book, line by line, which makes its index.
ghost use Rattle.std.specs.Prelude.{◌≡◌, ℕ, ◌≤◌, length};
ghost use Rattle.phrases.specs.Book.{is_next};
ghost use Rattle.phrases.specs.Lookup.{book_texts};
ghost use Rattle.phrases.specs.Index.{key, book_check, Indexed, book_numbers};

use crate::numbers::{clear, enter};
use causes::limits::PHRASES;
use causes::{Cause, Refusal};
use phrases::{count_of, find_keyed, key_of};

// Whether a line, of this key, is good behind the earlier lines, of which there is an index: a text, different from each of them, and not
// the 257th.
fn is_next(index: &[u32], earlier: &[u8], weight: usize, line: &[u8]) -> bool
    requires { Indexed index.now earlier.now × (weight ≡ key line.now) }
    ensures { result ≡ is_next (book_texts earlier.now) line.now }
{
    count_of(index) < PHRASES
        && text_bytes::is_text(line)
        && find_keyed(index, earlier, weight, line).is_none()
}

// How many phrases a book has, or its first bad line as a refusal; a last line without LF is bad. The index is that of the good lines in
// front of it.
pub fn check_book(book: &[u8], index: &mut [u32]) -> Result<usize, Refusal>
    requires { book_numbers ≤ length index.old }
    ensures index_after { (result, index.new) ≡ book_check book.now index.old }
    ensures by_index { (n : ℕ) → result ≡ Ok n → Indexed index.new book.now }
{
    clear(index);
    let mut n = 0;
    let mut a = 0;
    while a < book.len() {
        let e = text::find(book, a, b'\n');
        let line = &book[a..e];
        let weight = key_of(line);
        if e == book.len() || !is_next(index, &book[..a], weight, line) {
            return Err(Refusal {
                cause: Cause::Book,
                place: n + 1,
            });
        }
        enter(index, n, a, weight);
        a = e + 1;
        n += 1;
    }
    Ok(n)
}
