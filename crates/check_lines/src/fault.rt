// The cause of a line behind the lines seen: 6, 7 or 9, the lowest where there are several.
ghost use Rattle.std.specs.Prelude.{◌≡◌, ℕ, List, []};
ghost use Rattle.phrases.specs.Lookup.{phrase_text};
ghost use Rattle.transcript.specs.declared.Test as test;
ghost use Rattle.lines.specs.Line as line;
ghost use Rattle.lines.specs.Check as check;
ghost use Rattle.check_lines.specs.Held.{Sound, seen_of, line_with, fault_answer};

use crate::seen::Seen;
use causes::Cause;
use causes::limits::{INSTRUCTIONS, LEVELS, OWN_PHRASES};
use lines::Head;
use phrase_lookup::Lookup;

// Of a line with this head, behind the lines of which s holds and whose own phrases are known.
pub fn cause_of(
    line: &[u8],
    head: Head,
    known: &Lookup,
    s: Seen,
    opens: &[usize; 32],
) -> Result<(), Cause>
    requires { Sound s opens.now }
    ensures { result ≡ fault_answer (check.cause_of known.now.book (seen_of known.now.own s opens.now) (line_with (phrase_text line.now) head)) }
{
    match head {
        Head::Phrase => phrase_fault(text_parts::part(line, b',', 1), known, s),
        Head::If { .. } => if_fault(s),
        Head::Else => else_fault(s, opens),
        Head::Fi => fi_fault(s),
        _ => room_fault(s),
    }
}

// 6 in a listing: a phrase behind an instruction, the 33rd, or one that is in the book or among the own phrases.
fn phrase_fault(phrase: &[u8], known: &Lookup, s: Seen) -> Result<(), Cause>
    ensures { result ≡ fault_answer (check.phrase_cause known.now.book (seen_of known.now.own s []) phrase.now) }
{
    if s.instructions != 0 || OWN_PHRASES <= known.own_count() {
        return Err(Cause::Phrase);
    }
    match known.find(phrase) {
        Some(_) => Err(Cause::Phrase),
        None => Ok(()),
    }
}

// 9: the 513th instruction.
fn room_fault(s: Seen) -> Result<(), Cause>
    ensures { result ≡ fault_answer (check.room_cause (seen_of [] s [])) }
{
    if s.instructions < INSTRUCTIONS {
        Ok(())
    } else {
        Err(Cause::Instructions)
    }
}

// 7: an if at the 17th level.
fn if_fault(s: Seen) -> Result<(), Cause>
    ensures { (os : List ℕ) (x : test.Test) → result ≡ fault_answer (check.cause_of [] (seen_of [] s os) (line.if_line x)) }
{
    if LEVELS <= s.depth {
        return Err(Cause::Nesting);
    }
    room_fault(s)
}

// 7: an `else` without its if, or a second one.
fn else_fault(s: Seen, opens: &[usize; 32]) -> Result<(), Cause>
    requires { Sound s opens.now }
    ensures { result ≡ fault_answer (check.cause_of [] (seen_of [] s opens.now) line.else_line) }
{
    if s.depth == 0 || opens[s.depth - 1 + 16] == 1 {
        return Err(Cause::Nesting);
    }
    room_fault(s)
}

// 7: a `fi` without its if.
fn fi_fault(s: Seen) -> Result<(), Cause>
    ensures { (os : List ℕ) → result ≡ fault_answer (check.cause_of [] (seen_of [] s os) line.fi_line) }
{
    if s.depth == 0 {
        Err(Cause::Nesting)
    } else {
        Ok(())
    }
}
