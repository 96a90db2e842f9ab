// One line by itself.
ghost use Rattle.std.specs.Prelude.{◌≡◌, cond};
ghost use Rattle.text.specs.Parts.{comma, split, parts_from};
ghost use Rattle.text.specs.Text.{allowed_line};
ghost use Rattle.lines.specs.Line as line;
ghost use Rattle.lines.specs.Words.{line_of_kind};
ghost use Rattle.lines.specs.Answers.{head_of};

use crate::fields::{read_bare, read_goto, read_if, read_input, read_inputs};
use crate::one_text::{judge_text, read_phrase};
use crate::words::kind_of;
use causes::Cause;
use lines::{Form, Head, Kind};

// A line, or its cause 3, 4, 5 or, in a guide, 6. Fields that make a line have allowed bytes alone, so that the bytes are judged where they make none.
pub fn read_line(form: Form, s: &[u8]) -> Result<Head, Cause>
    ensures { result ≡ head_of (line.line_of form s.now) }
{
    read_fields(form, s).map_err(|cause| first_cause(s, cause))
}

// The cause of a line whose fields have this one: a byte that is not allowed, or an ill-formed letter, comes before it.
fn first_cause(s: &[u8], cause: Cause) -> Cause
    ensures { result ≡ cond (allowed_line s.now) cause Cause.Byte }
{
    if text_bytes::are_allowed(s) && utf8::well_formed(s) {
        cause
    } else {
        Cause::Byte
    }
}

// A line by its fields, of which the first is the kind.
fn read_fields(form: Form, s: &[u8]) -> Result<Head, Cause>
    ensures { result ≡ head_of (line.fields_line form (split comma s.now)) }
{
    let e = text::find(s, 0, b',');
    let kind = kind_of(&s[..e]).ok_or(Cause::Kind)?;
    read_kind(form, kind, s, e + 1)
}

// A line of this kind, whose fields behind the kind begin at a.
fn read_kind(form: Form, kind: Kind, s: &[u8], a: usize) -> Result<Head, Cause>
    ensures { result ≡ head_of (line_of_kind form kind (parts_from comma a s.now)) }
{
    match kind {
        Kind::Phrase => read_phrase(form, s, a),
        Kind::Input => read_input(s, a),
        Kind::Inputs => read_inputs(s, a),
        Kind::Print => {
            judge_text(s, a)?;
            Ok(Head::Print)
        }
        Kind::Printex => {
            judge_text(s, a)?;
            Ok(Head::Printex)
        }
        Kind::If => read_if(form, s, a),
        Kind::Else => read_bare(form, s, a, Head::Else),
        Kind::Fi => read_bare(form, s, a, Head::Fi),
        Kind::Goto => read_goto(form, s, a),
    }
}
