// One line that is known to have no cause by itself: its bytes, numbers and texts are not judged again.
ghost use Rattle.std.specs.Prelude.{◌≡◌, true, [], get_or};
ghost use Rattle.text.specs.Parts.{split, comma, parts_from};
ghost use Rattle.lines.specs.Line as line;
ghost use Rattle.lines.specs.Words.{kind_of, fields_at, line_of_kind};
ghost use Rattle.lines.specs.Answers.{head_of};
ghost use Rattle.lines.specs.Clean.{is_clean, CleanLine};

use crate::values::{known_constant, known_number, known_operator, known_register};
use lines::{Form, Head, Kind};
use transcript::Test;

// The kind of such a line: its second byte tells it, and the sixth where two words begin alike.
pub fn accepted_kind(s: &[u8]) -> Kind
    requires { CleanLine s.now }
    ensures { Some result ≡ kind_of (get_or (split comma s.now) 0 []) }
{
    match s[1] {
        b'h' => Kind::Phrase,
        b'r' => if s[5] == b',' {
            Kind::Print
        } else {
            Kind::Printex
        },
        b'n' => if s[5] == b',' {
            Kind::Input
        } else {
            Kind::Inputs
        },
        b'f' => Kind::If,
        b'l' => Kind::Else,
        b'i' => Kind::Fi,
        _ => Kind::Goto,
    }
}

// Where the fields behind a kind's word begin.
fn fields_at(kind: Kind) -> usize
    ensures { result ≡ fields_at kind }
{
    match kind {
        Kind::If | Kind::Fi => 3,
        Kind::Else | Kind::Goto => 5,
        Kind::Input | Kind::Print => 6,
        Kind::Phrase | Kind::Inputs => 7,
        Kind::Printex => 8,
    }
}

// The head of such a line.
pub fn accepted_line(form: Form, s: &[u8]) -> Head
    requires { is_clean (line.line_of form s.now) ≡ true }
    ensures { Ok result ≡ head_of (line.line_of form s.now) }
{
    let kind = accepted_kind(s);
    accepted_fields(form, kind, s, fields_at(kind))
}

// A line of this kind, whose fields behind the kind begin at a.
fn accepted_fields(form: Form, kind: Kind, s: &[u8], a: usize) -> Head
    requires { is_clean (line_of_kind form kind (parts_from comma a s.now)) ≡ true }
    ensures { Ok result ≡ head_of (line_of_kind form kind (parts_from comma a s.now)) }
{
    match kind {
        Kind::Phrase => Head::Phrase,
        Kind::Input => accepted_input(s, a),
        Kind::Inputs => accepted_inputs(s, a),
        Kind::Print => Head::Print,
        Kind::Printex => Head::Printex,
        Kind::If => accepted_if(form, s, a),
        Kind::Else => Head::Else,
        Kind::Fi => Head::Fi,
        Kind::Goto => accepted_goto(form, s, a),
    }
}

// `input,R,TEXT`.
fn accepted_input(s: &[u8], a: usize) -> Head
    requires { is_clean (line.input_line (parts_from comma a s.now)) ≡ true }
    ensures { Ok result ≡ head_of (line.input_line (parts_from comma a s.now)) }
{
    Head::Input {
        register: known_register(s, a).value,
    }
}

// `inputs,R,TEXT,OPTION,..`.
fn accepted_inputs(s: &[u8], a: usize) -> Head
    requires { is_clean (line.inputs_line (parts_from comma a s.now)) ≡ true }
    ensures { Ok result ≡ head_of (line.inputs_line (parts_from comma a s.now)) }
{
    Head::Inputs {
        register: known_register(s, a).value,
        options: text_parts::count_parts(&s[a..], b',') - 2,
    }
}

// A guide's `if,R,OP,C`; a listing's `if,R,OP,C,SKIP`.
fn accepted_if(form: Form, s: &[u8], a: usize) -> Head
    requires { is_clean (line.if_fields form (parts_from comma a s.now)) ≡ true }
    ensures { Ok result ≡ head_of (line.if_fields form (parts_from comma a s.now)) }
{
    let r = known_register(s, a);
    let op = known_operator(s, r.next);
    let c = known_constant(s, r.next + 3);
    let test = Test {
        register: r.value,
        op,
        constant: c.value,
    };
    match form {
        Form::Guide => Head::If { test },
        Form::Listing => Head::IfSkip {
            test,
            skip: known_number(s, c.next).value,
        },
    }
}

// A listing's `goto,SKIP`.
fn accepted_goto(form: Form, s: &[u8], a: usize) -> Head
    requires { is_clean (line.goto_fields form (parts_from comma a s.now)) ≡ true }
    ensures { Ok result ≡ head_of (line.goto_fields form (parts_from comma a s.now)) }
{
    Head::Goto {
        skip: known_number(s, a).value,
    }
}
