// The plate of an accepted guide.
ghost use Rattle.std.specs.Prelude.{◌≡◌, ◌≤◌, length};
ghost use Rattle.causes.specs.Limits.{most_guide_bytes};
ghost use Rattle.causes.specs.Answers.{written_answer};
ghost use Rattle.phrases.specs.Lookup.{book_texts};
ghost use Rattle.phrases.specs.Own.{Listed};
ghost use Rattle.lines.specs.declared.Form.TheVariants.{Guide as a_guide};
ghost use Rattle.assemble.specs.LineCode.{program_in};
ghost use Rattle.assemble.specs.Assembled.{Counted, lent_program};
ghost use Rattle.translate.specs.Lengths.{skip_table};

use crate::lengths::block_length;
use causes::Written;
use causes::limits::INSTRUCTIONS;
use lines::Form;

// First the skips are counted into the table, and then the plate is made, line by line: `instructions` is what the check counts.
// A guide has no own phrases.
pub fn write(
    guide: &[u8],
    index: &[u32],
    book: &[u8],
    instructions: usize,
    plate: &mut [u8],
) -> Written
    requires { (length guide.now ≤ most_guide_bytes) × Listed index.now book.now guide.now 0 × Counted a_guide (skip_table guide.now) guide.now instructions }
    ensures { (written_answer result, plate.new) ≡ lent_program (book_texts book.now) (program_in a_guide (skip_table guide.now) guide.now 0) plate.old }
{
    let mut skips = [0u16; INSTRUCTIONS];
    block_length(guide, 0, &mut skips, 0);
    assemble::write(
        Form::Guide,
        guide,
        &skips,
        index,
        book,
        0,
        instructions,
        plate,
    )
}
