// One line: its skip, its count of instructions, and its bits.
ghost use Rattle.std.specs.Prelude.{◌≡◌, get_or};
ghost use Rattle.output.specs.Pour.{poured};
ghost use Rattle.bits.specs.Bits.{bytes_bits};
ghost use Rattle.text.specs.Parts.{split, comma};
ghost use Rattle.plate.specs.Writing.{instructions_bits};
ghost use Rattle.lines.specs.Answers.{Heads};
ghost use Rattle.assemble.specs.LineCode.{head_code, count_by, skip_by};

use causes::limits::PLATE_BYTES;
use lines::Head;
use phrase_lookup::Lookup;

// The skip of a line: its own, or `skip` where it is an if or an else of a guide; 0 where it has none.
pub fn skip_of(head: Head, skip: usize) -> usize
    ensures { result ≡ skip_by skip head }
{
    match head {
        Head::If { .. } | Head::Else => skip,
        Head::Goto { skip: own } | Head::IfSkip { skip: own, .. } => own,
        Head::Phrase
        | Head::Input { .. }
        | Head::Inputs { .. }
        | Head::Print
        | Head::Printex
        | Head::Fi => 0,
    }
}

// How many instructions a line is.
pub fn count_of(head: Head) -> usize
    ensures { result ≡ count_by head }
{
    match head {
        Head::Phrase | Head::Fi => 0,
        _ => 1,
    }
}

// The skip of an instruction in the table; 0 past its end.
pub fn skip_at(skips: &[u16], number: usize) -> usize
    ensures { result ≡ get_or skips.now number 0 }
{
    skips.get(number).copied().unwrap_or(0) as usize
}

// The instruction of a line, if it has one; `skip` is the skip of a guide's if or else.
pub fn put(
    out: &mut [u8; PLATE_BYTES],
    at: usize,
    head: Head,
    line: &[u8],
    skip: usize,
    known: &Lookup,
) -> usize
    requires { Heads head line.now }
    ensures { (result, bytes_bits out.new) ≡ poured at (instructions_bits known.now (head_code skip head (split comma line.now))) (bytes_bits out.old) }
{
    match head {
        Head::If { test } => writer::put_if(out, at, test, skip),
        Head::Else => writer::put_goto(out, at, skip),
        _ => writer::put_line(out, at, Ok(head), line, known),
    }
}
