// The call `write_plate`: the plate of a listing, with a book.
// The book is checked, unless it is empty, then the listing, line by line; then crate assemble makes the plate, or finds a skip that goes
// too far. A refusal leaves the buffer as it was. Crate listing's specs/Calls.antt says what the call answers and leaves in the lent buffer.
#![tactic(auto)]

ghost use Rattle.std.specs.Prelude.{◌≡◌};
ghost use Rattle.causes.specs.Limits.{most_own};
ghost use Rattle.causes.specs.Answers.{written_answer};
ghost use Rattle.phrases.specs.Index.{CheckedBook};
ghost use Rattle.listing.specs.Calls.{write_plate_call};

use causes::Written;
use lines::Form;
use phrases::{EMPTY_INDEX_NUMBERS, INDEX_NUMBERS};

// The plate with a book that is checked.
fn write_with(listing: &[u8], index: &mut [u32], book: &[u8], plate: &mut [u8]) -> Written
    requires { CheckedBook most_own index.old book.now }
    ensures { (written_answer result, plate.new) ≡ write_plate_call listing.now book.now plate.old }
{
    let counts = check_lines::check(Form::Listing, index, book, listing)?;
    assemble::write(
        Form::Listing,
        listing,
        &[],
        index,
        book,
        counts.own,
        counts.instructions,
        plate,
    )
}

// A listing's plate is written into the lent buffer. The index of an empty book is short, so that a small listing clears little.
pub fn write_plate(listing: &[u8], book: &[u8], plate: &mut [u8]) -> Written
    ensures { (written_answer result, plate.new) ≡ write_plate_call listing.now book.now plate.old }
{
    if book.is_empty() {
        let mut index = [0u32; EMPTY_INDEX_NUMBERS];
        return write_with(listing, &mut index, book, plate);
    }
    let mut index = [0u32; INDEX_NUMBERS];
    phrase_check::check_book(book, &mut index)?;
    write_with(listing, &mut index, book, plate)
}
