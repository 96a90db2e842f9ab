// The lines of the transcript, each written at the front of its unwritten tail.
// A line is stored as far as the buffer goes, and counted to its end: `poured` (crate output) says both. A line begins with its letter and a
// comma, and ends with LF: who has its texts elsewhere writes it from these. Any text, any place and any buffer will do.
#![tactic(auto)]

ghost use Rattle.std.specs.Prelude.{◌≡◌, [], ◌∷◌, ◌++◌};
ghost use Rattle.text.specs.Parts.{comma, LF};
ghost use Rattle.output.specs.Pour.{poured};
ghost use Rattle.transcript.specs.State.{asked, answered, shown, ruled, line_bytes};
ghost use Rattle.transcript.specs.Offered.{offer_bytes};
ghost use Rattle.transcript_lines.specs.TextLine.{text_line};

// The letters: "`Q,TEXT` for input; `C,TEXT,OPTION,..` for inputs; `A,number` for the answer taken; `S,TEXT` for print; `V,TEXT` for printex".
pub const ASKED: u8 = b'Q';

pub const OFFERED: u8 = b'C';

const ANSWERED: u8 = b'A';

pub const SHOWN: u8 = b'S';

pub const RULED: u8 = b'V';

// The beginning of a line, at the front of the tail.
pub fn begin(tail: &mut [u8], letter: u8) -> usize
    ensures { (result, tail.new) ≡ poured 0 (letter ∷ comma ∷ []) tail.old }
{
    let end = text_out::put_byte(tail, 0, letter);
    text_out::put_byte(tail, end, b',')
}

// The end of a line, behind what is written of it.
pub fn end(tail: &mut [u8], at: usize) -> usize
    ensures { (result, tail.new) ≡ poured at (LF ∷ []) tail.old }
{
    text_out::put_byte(tail, at, b'\n')
}

// The line of a letter and a text, at the front of the tail.
fn text_in(tail: &mut [u8], letter: u8, text: &[u8]) -> usize
    ensures { (result, tail.new) ≡ poured 0 (text_line letter text.now) tail.old }
{
    let at = begin(tail, letter);
    let at = text_out::put(tail, at, text);
    end(tail, at)
}

// The A line of a number, at the front of the tail.
fn answer_in(tail: &mut [u8], v: i32) -> usize
    ensures { (result, tail.new) ≡ poured 0 (line_bytes (answered v)) tail.old }
{
    let at = begin(tail, ANSWERED);
    let at = text_out::put_number(tail, at, v);
    end(tail, at)
}

// The line of a letter and a text at a place of the transcript: its tail from there on, which is empty past the buffer's end, takes it.
fn put_text(out: &mut [u8], at: usize, letter: u8, text: &[u8]) -> usize
    ensures { (result, out.new) ≡ poured at (text_line letter text.now) out.old }
{
    let from = output::least(at, out.len());
    let n = text_in(&mut out[from..], letter, text);
    output::sum(at, n)
}

// The Q line of a question.
pub fn put_asked(out: &mut [u8], at: usize, text: &[u8]) -> usize
    ensures { (result, out.new) ≡ poured at (line_bytes (asked text.now)) out.old }
{
    put_text(out, at, ASKED, text)
}

// The C line of a question, with its options behind it, each behind a comma.
pub fn put_offered(out: &mut [u8], at: usize, texts: &[u8]) -> usize
    ensures { (result, out.new) ≡ poured at (offer_bytes texts.now ++ (LF ∷ [])) out.old }
{
    put_text(out, at, OFFERED, texts)
}

// The A line of an answer.
pub fn put_answered(out: &mut [u8], at: usize, v: i32) -> usize
    ensures { (result, out.new) ≡ poured at (line_bytes (answered v)) out.old }
{
    let from = output::least(at, out.len());
    let n = answer_in(&mut out[from..], v);
    output::sum(at, n)
}

// The S line of a text.
pub fn put_shown(out: &mut [u8], at: usize, text: &[u8]) -> usize
    ensures { (result, out.new) ≡ poured at (line_bytes (shown text.now)) out.old }
{
    put_text(out, at, SHOWN, text)
}

// The V line of a verdict.
pub fn put_ruled(out: &mut [u8], at: usize, text: &[u8]) -> usize
    ensures { (result, out.new) ≡ poured at (line_bytes (ruled text.now)) out.old }
{
    put_text(out, at, RULED, text)
}
