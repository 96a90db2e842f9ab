// The translator: guide to plate.
// Crate translating says which instructions a block is (specs/Translation.antt), and what the call answers and leaves in the lent buffer
// (specs/Call.antt).
// The book is checked, unless it is empty, then the guide, and a refusal leaves the buffer as it was. The skips are counted first, by
// recursion into nested blocks, into a table of 512 numbers (specs/Lengths.antt). Then crate assemble makes the plate line by line: an if
// and an else line take their skip from the table.
#![tactic(auto)]

mod lengths;
mod passes;
mod table;

ghost use Rattle.std.specs.Prelude.{◌≡◌};
ghost use Rattle.causes.specs.Answers.{written_answer};
ghost use Rattle.phrases.specs.Index.{CheckedBook};
ghost use Rattle.translating.specs.Call.{translate_call};

use causes::Written;
use lines::Form;
use phrases::{BOOK_NUMBERS, ENTRIES_AT};

// The plate with a book that is checked.
fn translate_with(guide: &[u8], index: &mut [u32], book: &[u8], plate: &mut [u8]) -> Written
    requires { CheckedBook 0 index.old book.now }
    ensures { (written_answer result, plate.new) ≡ translate_call guide.now book.now plate.old }
{
    let counts = check_lines::check(Form::Guide, index, book, guide)?;
    passes::write(guide, index, book, counts.instructions, plate)
}

// A guide's plate is written into the lent buffer. The index of an empty book is short, so that a small guide clears little.
pub fn translate(guide: &[u8], book: &[u8], plate: &mut [u8]) -> Written
    ensures { (written_answer result, plate.new) ≡ translate_call guide.now book.now plate.old }
{
    if book.is_empty() {
        let mut index = [0u32; ENTRIES_AT];
        return translate_with(guide, &mut index, book, plate);
    }
    let mut index = [0u32; BOOK_NUMBERS];
    phrase_check::check_book(book, &mut index)?;
    translate_with(guide, &mut index, book, plate)
}
