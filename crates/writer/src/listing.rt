// The instruction of a listing line.
ghost use Rattle.std.specs.Prelude.{◌≡◌, ◌≤◌, length};
ghost use Rattle.causes.specs.Limits.{most_plate_bytes};
ghost use Rattle.output.specs.Pour.{poured};
ghost use Rattle.bits.specs.Bits.{bytes_bits};
ghost use Rattle.text.specs.Parts.{split, comma};
ghost use Rattle.writer.specs.Listing.{HeadOf, line_bits};

use crate::instructions::{put_goto, put_if, put_input, put_inputs};
use causes::Cause;
use lines::Head;
use phrase_lookup::Lookup;
use text_bits::put_text;

// The codes of a text that is shown, and of a verdict.
const PRINT: usize = 2;

const PRINTEX: usize = 3;

// A listing line's instruction, by the line's head and its fields. A phrase's line has none, nor has a line that no listing has, as one that
// has a cause.
// The text of a print begins behind `print,`, and that of a verdict behind `printex,`.
pub fn put_line(
    out: &mut [u8],
    at: usize,
    head: Result<Head, Cause>,
    line: &[u8],
    known: &Lookup,
) -> usize
    requires { (length out.old ≤ most_plate_bytes) × HeadOf head line.now }
    ensures { (result, bytes_bits out.new) ≡ poured at (line_bits known.now head (split comma line.now)) (bytes_bits out.old) }
{
    let Ok(head) = head else {
        return at;
    };
    match head {
        Head::Input { register } => {
            let a = accepted_lines::behind_register(line, 6);
            put_input(out, at, register, &line[a..], known)
        }
        Head::Inputs { register, options } => {
            let a = accepted_lines::behind_register(line, 7);
            put_inputs(out, at, register, options, line, a, known)
        }
        Head::Print => put_text(out, at, 3, PRINT, &line[6..], known),
        Head::Printex => put_text(out, at, 3, PRINTEX, &line[8..], known),
        Head::Goto { skip } => put_goto(out, at, skip),
        Head::IfSkip { test, skip } => put_if(out, at, test, skip),
        _ => at,
    }
}
