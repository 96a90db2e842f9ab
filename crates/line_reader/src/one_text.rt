// A line with one text behind its kind: `phrase,TEXT`, `print,TEXT`, `printex,TEXT`.
ghost use Rattle.std.specs.Prelude.{◌≡◌};
ghost use Rattle.text.specs.Parts.{comma, parts_from};
ghost use Rattle.text.specs.Text.{is_text, is_own_text};
ghost use Rattle.lines.specs.Line as line;
ghost use Rattle.lines.specs.Answers.{head_of};
ghost use Rattle.line_reader.specs.Answers.{one_text};

use causes::Cause;
use lines::{Form, Head};

// Whether the fields are one text: 4 where there is another count of fields, 5 where the field is no text. A text has no comma, so it is the only field.
#[inline(always)]
pub fn judge_text(s: &[u8], a: usize) -> Result<(), Cause>
    ensures { result ≡ one_text is_text (parts_from comma a s.now) }
{
    if s.len() < a {
        Err(Cause::Kind)
    } else if text_bytes::is_text(&s[a..]) {
        Ok(())
    } else if text::find(s, a, b',') < s.len() {
        Err(Cause::Kind)
    } else {
        Err(Cause::Value)
    }
}

// The same of an own phrase, which keeps to ASCII.
fn judge_own(s: &[u8], a: usize) -> Result<(), Cause>
    ensures { result ≡ one_text is_own_text (parts_from comma a s.now) }
{
    judge_text(s, a)?;
    if !utf8::is_ascii(&s[a..]) {
        return Err(Cause::Value);
    }
    Ok(())
}

// `phrase,TEXT` of a listing; in a guide such a line is 6.
pub fn read_phrase(form: Form, s: &[u8], a: usize) -> Result<Head, Cause>
    ensures { result ≡ head_of (line.text_line is_own_text (line.phrase_line form) (parts_from comma a s.now)) }
{
    judge_own(s, a)?;
    match form {
        Form::Guide => Err(Cause::Phrase),
        Form::Listing => Ok(Head::Phrase),
    }
}
