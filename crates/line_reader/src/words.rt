// The words of a line: its kind, and the operator of an if.
ghost use Rattle.std.specs.Prelude.{◌≡◌};
ghost use Rattle.lines.specs.Line.{operator};
ghost use Rattle.lines.specs.Words.{kind_of};

use lines::Kind;
use text_parts::same;
use transcript::Op;

// The kind that a word names.
#[tactic(auto, unfolding(lines::specs::Words::kind_of))]
pub fn kind_of(word: &[u8]) -> Option<Kind>
    ensures { result ≡ kind_of word.now }
{
    if same(word, b"phrase") {
        Some(Kind::Phrase)
    } else if same(word, b"input") {
        Some(Kind::Input)
    } else if same(word, b"inputs") {
        Some(Kind::Inputs)
    } else if same(word, b"print") {
        Some(Kind::Print)
    } else if same(word, b"printex") {
        Some(Kind::Printex)
    } else if same(word, b"if") {
        Some(Kind::If)
    } else if same(word, b"else") {
        Some(Kind::Else)
    } else if same(word, b"fi") {
        Some(Kind::Fi)
    } else if same(word, b"goto") {
        Some(Kind::Goto)
    } else {
        None
    }
}

// The operator that a word names.
#[tactic(auto, unfolding(lines::specs::Line::operator))]
pub fn read_operator(word: &[u8]) -> Option<Op>
    ensures { result ≡ operator word.now }
{
    if same(word, b"eq") {
        Some(Op::Eq)
    } else if same(word, b"ne") {
        Some(Op::Ne)
    } else if same(word, b"lt") {
        Some(Op::Lt)
    } else if same(word, b"le") {
        Some(Op::Le)
    } else if same(word, b"gt") {
        Some(Op::Gt)
    } else if same(word, b"ge") {
        Some(Op::Ge)
    } else {
        None
    }
}
