// The walker: runs a guide from its text.
// crate walking says in its specs/Walk.antt what the walk of a block is, and in its specs/Call.antt what the call answers and leaves in the lent
// buffer; crate walk_blocks walks a block.
// The book is checked, then the guide, and a refusal leaves the buffer as it was. The walk is made once, on the lent buffer, where that is surely
// long enough; else twice: first on no buffer, to learn the transcript's length.
#![tactic(auto)]

mod passes;

ghost use Rattle.std.specs.Prelude.{◌≡◌};
ghost use Rattle.causes.specs.Answers.{ran_answer};
ghost use Rattle.walking.specs.Call.{walk_call};

use causes::Ran;
use lines::Form;
use phrases::BOOK_NUMBERS;

// A guide is walked on the answers, and its transcript written.
pub fn walk(guide: &[u8], book: &[u8], answers: &[i32], transcript: &mut [u8]) -> Ran
    ensures { (ran_answer result, transcript.new) ≡ walk_call guide.now book.now answers.now transcript.old }
{
    let mut index = [0u32; BOOK_NUMBERS];
    phrase_check::check_book(book, &mut index)?;
    let counts = check_lines::check(Form::Guide, &mut index, book, guide)?;
    passes::write(guide, counts.instructions, answers, transcript)
}
