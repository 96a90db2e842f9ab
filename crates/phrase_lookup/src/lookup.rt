// Where a text is a phrase: in the book, else among the own phrases; and the text of a phrase by its place.
ghost use Rattle.std.specs.Prelude.{◌≡◌, true, false, ◌+◌, ◌≤◌, ◌<◌, length};
ghost use Rattle.causes.specs.Limits.{most_phrases, most_own};
ghost use Rattle.phrases.specs.Phrases.{Phrases, find};
ghost use Rattle.phrases.specs.Lookup.{book_texts, own_texts, phrases_in, phrase_in, found_answer};
ghost use Rattle.phrases.specs.Index.{Indexed};
ghost use Rattle.phrases.specs.Own.{OwnAt, OwnNumbers, Listed};
ghost use Rattle.phrase_lookup.specs.Found.{Has, phrase_at};

use crate::own::{find_own, own_at};
use phrases::{Found, find_keyed, key_of, text_of};
use std::marker::Model;

// A phrase book, of which there is an index, and own phrases, which are the first `count` lines of `own`; their numbers stand behind the index.
#[derive(Drop)]
pub struct Lookup<'a> {
    index: &'a [u32],
    book: &'a [u8],
    own: &'a [u8],
    count: usize,
}

// Contracts see the phrases: the book's and the own ones.
impl<'a> Model for Lookup<'a> {
    ghost Value = { Phrases };

    ghost view = { λ l. phrases_in l.book.now l.own.now l.count };

    ghost invariant = { λ l. Listed l.index.now l.book.now l.own.now l.count };
}

impl<'a> Lookup<'a> {
    pub fn new(index: &'a [u32], book: &'a [u8], own: &'a [u8], count: usize) -> Self
        requires { Listed index.now book.now own.now count }
        ensures { result ≡ phrases_in book.now own.now count }
    {
        Lookup {
            index,
            book,
            own,
            count,
        }
    }

    // How many phrases the book has.
    pub fn book_count(&self) -> usize
        ensures value { result ≡ length self.now.book }
        ensures upper_bound { result ≤ most_phrases }
    {
        self.index[0] as usize
    }

    // How many own phrases there are.
    pub fn own_count(&self) -> usize
        ensures value { result ≡ length self.now.own }
        ensures upper_bound { result ≤ most_own }
    {
        self.count
    }

    // The lines of the own phrases: the text whose first lines they are.
    pub fn own_lines(&self) -> &'a [u8]
        ensures { own_texts (length self.now.own) result.now ≡ self.now.own }
    {
        self.own
    }

    // How many phrases there are.
    pub fn count(&self) -> usize
        ensures { result ≡ length self.now.book + length self.now.own }
    {
        self.book_count() + self.own_count()
    }

    // Where a text is a phrase: its place in the book, else among the own phrases.
    #[inline(always)]
    pub fn find(&self, text: &[u8]) -> Option<Found>
        ensures { result ≡ found_answer (find self.now text.now) }
    {
        find_phrase(self.index, self.book, self.own, self.count, text)
    }

    // The text of a phrase.
    pub fn text(&self, found: Found) -> &'a [u8]
        requires { Has self.now found }
        ensures { result.now ≡ phrase_at self.now found }
    {
        match found {
            Found::InBook(i) => phrase_text(self.index, self.book, self.own, false, i),
            Found::InOwn(k) => phrase_text(self.index, self.book, self.own, true, k),
        }
    }
}

// The place of a text in the book, else among the own phrases, which are the first `count` lines of `own`.
#[inline(always)]
pub fn find_phrase(
    index: &[u32],
    book: &[u8],
    own: &[u8],
    count: usize,
    text: &[u8],
) -> Option<Found>
    requires { Indexed index.now book.now × OwnNumbers index.now book.now own.now count }
    ensures { result ≡ found_answer (find (phrases_in book.now own.now count) text.now) }
{
    let weight = key_of(text);
    if let Some(i) = find_keyed(index, book, weight, text) {
        return Some(Found::InBook(i));
    }
    let k = find_own(index, book, own, count, weight, text)?;
    Some(Found::InOwn(k))
}

// The text of the phrase at a place of the book, or among the own phrases: a part of one of the two, never a copy.
pub fn phrase_text<'a>(
    index: &'a [u32],
    book: &'a [u8],
    own: &'a [u8],
    is_own: bool,
    i: usize,
) -> &'a [u8]
    requires { Indexed index.now book.now × (is_own ≡ false → i < length (book_texts book.now)) × (is_own ≡ true → OwnAt index.now book.now own.now i) }
    ensures { result.now ≡ phrase_in book.now own.now is_own i }
{
    if is_own {
        own_at(index, book, own, i)
    } else {
        text_of(index, book, i)
    }
}
