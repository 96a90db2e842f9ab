// The converter from a plate to its listing.
// crate listing's specs/Listing.antt says which text a program is; its specs/Calls.antt what the call answers and leaves in the lent buffer.
// The book is checked, unless it is empty, which makes its index, then the whole plate, and a refusal leaves the buffer as it was. Only a
// plate with own phrases is given room for them, so that a small plate clears no large array. Then the own phrases and the instructions are
// written, each line at the front of the buffer's unwritten tail; an instruction is read again from its bits, and a text is copied from the
// plate. A buffer with room for every line, which the first reading of the plate counts, is written at once; else the listing is made twice:
// first on no buffer, to learn its length, and then on the lent one.
#![tactic(auto)]

mod passes;
mod phrase_lines;

ghost use Rattle.std.specs.Prelude.{◌≡◌};
ghost use Rattle.causes.specs.Limits.{most_own};
ghost use Rattle.causes.specs.Answers.{written_answer};
ghost use Rattle.output.specs.Pour.{pour};
ghost use Rattle.phrases.specs.Lookup.{book_texts};
ghost use Rattle.phrases.specs.Index.{CheckedBook};
ghost use Rattle.reader.specs.Own.{OwnRoom, own_lines, own_stored};
ghost use Rattle.listing.specs.Calls.{read_plate_call};

use causes::Written;
use phrase_lookup::Lookup;
use phrases::{EMPTY_INDEX_NUMBERS, INDEX_NUMBERS};
use reader::OWN_BYTES;

// The listing with a book that is checked and room for the plate's own phrases, if it has some.
fn read_own(
    plate: &[u8],
    index: &mut [u32],
    book: &[u8],
    own: &mut [u8],
    listing: &mut [u8],
) -> Written
    requires { CheckedBook most_own index.old book.now × OwnRoom plate.now own.old }
    ensures listing_after { (written_answer result, listing.new) ≡ read_plate_call plate.now book.now listing.old }
    ensures own_after { own.new ≡ pour 0 (own_lines (own_stored (book_texts book.now) plate.now)) own.old }
{
    let contents = reader::read_contents(plate, index, book, own)?;
    let known = Lookup::new(index, book, own, contents.own);
    passes::write(plate, &known, contents, listing)
}

// The listing with a book that is checked. Only a plate with own phrases is given room for them.
fn read_with(plate: &[u8], index: &mut [u32], book: &[u8], listing: &mut [u8]) -> Written
    requires { CheckedBook most_own index.old book.now }
    ensures { (written_answer result, listing.new) ≡ read_plate_call plate.now book.now listing.old }
{
    if reader::has_own(plate) {
        let mut own = [0u8; OWN_BYTES];
        return read_own(plate, index, book, &mut own, listing);
    }
    read_own(plate, index, book, &mut [], listing)
}

// A plate's listing is written.
pub fn read_plate(plate: &[u8], book: &[u8], listing: &mut [u8]) -> Written
    ensures { (written_answer result, listing.new) ≡ read_plate_call plate.now book.now listing.old }
{
    if book.is_empty() {
        let mut index = [0u32; EMPTY_INDEX_NUMBERS];
        return read_with(plate, &mut index, book, listing);
    }
    let mut index = [0u32; INDEX_NUMBERS];
    phrase_check::check_book(book, &mut index)?;
    read_with(plate, &mut index, book, listing)
}
