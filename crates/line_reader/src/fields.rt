// The fields behind each kind of line: those of the line s from the place a on, parted by commas. Where a is past the line's end there are none.
ghost use Rattle.std.specs.Prelude.{◌≡◌, [], cond, ◌≤◌, length, get_or, eqb};
ghost use Rattle.text.specs.Parts.{comma, parts_from};
ghost use Rattle.lines.specs.Line as line;
ghost use Rattle.lines.specs.Answers.{head_of};
ghost use Rattle.line_reader.specs.Answers.{Tests};

use crate::one_text::judge_text;
use crate::words::read_operator;
use causes::Cause;
use lines::{Form, Head};
use transcript::Test;

// The test of an if, and where its C ends.
struct TestAt {
    test: Test,
    end: usize,
}

// The first field; no bytes where there is none.
pub fn field_at(s: &[u8], a: usize) -> &[u8]
    ensures { result.now ≡ get_or (parts_from comma a s.now) 0 [] }
{
    if s.len() < a {
        return &s[..0];
    }
    &s[a..text::find(s, a, b',')]
}

// How many fields there are.
pub fn count_fields(s: &[u8], a: usize) -> usize
    ensures { result ≡ length (parts_from comma a s.now) }
{
    if s.len() < a {
        0
    } else {
        text_parts::count_parts(&s[a..], b',')
    }
}

// `input,R,TEXT`: with a wrong R, the text still tells a wrong count of fields from a wrong value.
pub fn read_input(s: &[u8], a: usize) -> Result<Head, Cause>
    ensures { result ≡ head_of (line.input_line (parts_from comma a s.now)) }
{
    if s.len() < a {
        return Err(Cause::Kind);
    }
    let e = text::find(s, a, b',');
    judge_text(s, e + 1)?;
    let register = decimals::read_natural(&s[a..e], 31).ok_or(Cause::Value)?;
    Ok(Head::Input {
        register: register as usize,
    })
}

// `inputs,R,TEXT,OPTION,..`, with 2 to 8 options.
pub fn read_inputs(s: &[u8], a: usize) -> Result<Head, Cause>
    ensures { result ≡ head_of (line.inputs_line (parts_from comma a s.now)) }
{
    let n = count_fields(s, a);
    if n < 4 || 10 < n {
        return Err(Cause::Kind);
    }
    let register = decimals::read_natural(field_at(s, a), 31).ok_or(Cause::Value)?;
    if !text_bytes::are_texts(&s[a..], 1) {
        return Err(Cause::Value);
    }
    Ok(Head::Inputs {
        register: register as usize,
        options: n - 2,
    })
}

// The R, OP and C of an if, one behind the other.
fn read_test(s: &[u8], a: usize) -> Option<TestAt>
    requires { a ≤ length s.now }
    ensures { Tests s.now (parts_from comma a s.now) result }
{
    let e = text::find(s, a, b',');
    let register = decimals::read_natural(&s[a..e], 31)?;
    if e == s.len() {
        return None;
    }
    let b = e + 1;
    let f = text::find(s, b, b',');
    let op = read_operator(&s[b..f])?;
    if f == s.len() {
        return None;
    }
    let c = f + 1;
    let end = text::find(s, c, b',');
    let constant = decimals::read_constant(&s[c..end])?;
    let test = Test {
        register: register as usize,
        op,
        constant,
    };
    Some(TestAt { test, end })
}

// A guide's `if,R,OP,C`; a listing's `if,R,OP,C,SKIP`.
pub fn read_if(form: Form, s: &[u8], a: usize) -> Result<Head, Cause>
    ensures { result ≡ head_of (line.if_fields form (parts_from comma a s.now)) }
{
    if s.len() < a {
        return Err(Cause::Kind);
    }
    match form {
        Form::Guide => read_guide_if(s, a),
        Form::Listing => read_listing_if(s, a),
    }
}

// The cause of an if with a wrong R, OP or C, which should have n fields.
fn wrong_test(s: &[u8], a: usize, n: usize) -> Cause
    ensures { result ≡ cond (eqb (length (parts_from comma a s.now)) n) Cause.Value Cause.Kind }
{
    if count_fields(s, a) == n {
        Cause::Value
    } else {
        Cause::Kind
    }
}

fn read_guide_if(s: &[u8], a: usize) -> Result<Head, Cause>
    requires { a ≤ length s.now }
    ensures { result ≡ head_of (line.if_fields Form.Guide (parts_from comma a s.now)) }
{
    let Some(TestAt { test, end }) = read_test(s, a) else {
        return Err(wrong_test(s, a, 3));
    };
    if end < s.len() {
        return Err(Cause::Kind);
    }
    Ok(Head::If { test })
}

fn read_listing_if(s: &[u8], a: usize) -> Result<Head, Cause>
    requires { a ≤ length s.now }
    ensures { result ≡ head_of (line.if_fields Form.Listing (parts_from comma a s.now)) }
{
    let Some(TestAt { test, end }) = read_test(s, a) else {
        return Err(wrong_test(s, a, 4));
    };
    if end == s.len() {
        return Err(Cause::Kind);
    }
    let k = end + 1;
    let e = text::find(s, k, b',');
    if e < s.len() {
        return Err(Cause::Kind);
    }
    let skip = decimals::read_natural(&s[k..e], 511).ok_or(Cause::Value)?;
    Ok(Head::IfSkip {
        test,
        skip: skip as usize,
    })
}

// No field, of a guide's line with this head: `else` and `fi`.
pub fn read_bare(form: Form, s: &[u8], a: usize, head: Head) -> Result<Head, Cause>
    ensures { (l : line.Line) → head_of l ≡ Ok head → result ≡ head_of (line.bare_line form l (parts_from comma a s.now)) }
{
    match form {
        Form::Guide if s.len() < a => Ok(head),
        _ => Err(Cause::Kind),
    }
}

// A listing's `goto,SKIP`.
pub fn read_goto(form: Form, s: &[u8], a: usize) -> Result<Head, Cause>
    ensures { result ≡ head_of (line.goto_fields form (parts_from comma a s.now)) }
{
    if let Form::Guide = form {
        return Err(Cause::Kind);
    }
    if s.len() < a {
        return Err(Cause::Kind);
    }
    let e = text::find(s, a, b',');
    if e < s.len() {
        return Err(Cause::Kind);
    }
    let skip = decimals::read_natural(&s[a..e], 511).ok_or(Cause::Value)?;
    Ok(Head::Goto {
        skip: skip as usize,
    })
}
