// What the lines seen so far hold, and what one line more adds to it.
// The open ifs stand in a lent array of 32 numbers: the line of each, and 16 places behind it a 1 once its `else` has come.
ghost use Rattle.std.specs.Prelude.{ℕ, ◌<◌, List};
ghost use Rattle.causes.specs.Limits.{most_instructions, most_levels, most_own};
ghost use Rattle.text.specs.Text.{Text};
ghost use Rattle.transcript.specs.declared.Test as test;
ghost use Rattle.lines.specs.Line as line;
ghost use Rattle.lines.specs.Check as check;
ghost use Rattle.check_lines.specs.Held.{Sound, Advanced, Passing, line_with};

use lines::Head;

// The number of own phrases, of instructions, and of ifs that are open.
#[derive(Clone, Copy, Debug, PartialEq, Eq)]
pub struct Seen {
    pub own: usize,
    pub instructions: usize,
    pub depth: usize,
}

// One line more: line n, which has this head and no cause.
pub fn advance(n: usize, head: Head, s: Seen, opens: &mut [usize; 32]) -> Seen
    requires { Passing head s opens.old × Sound s opens.old }
    ensures { (x : Text) → Advanced (check.next n (line_with x head)) s opens.old result opens.new }
{
    match head {
        Head::Phrase => one_more_phrase(s),
        Head::If { .. } => opened(n, s, opens),
        Head::Else => turned(s, opens),
        Head::Fi => closed(s),
        _ => one_more_instruction(s),
    }
}

fn one_more_phrase(s: Seen) -> Seen
    requires { s.own < most_own }
    ensures { (n : ℕ) (x : Text) (os : List ℕ) → Sound s os → Advanced (check.next n (line.phrase x)) s os result os }
{
    Seen {
        own: s.own + 1,
        ..s
    }
}

fn one_more_instruction(s: Seen) -> Seen
    requires { s.instructions < most_instructions }
    ensures { (os : List ℕ) → Sound s os → Advanced (λ t. check.one_more_instruction t.ifs t) s os result os }
{
    Seen {
        instructions: s.instructions + 1,
        ..s
    }
}

// One if more, at line n.
fn opened(n: usize, s: Seen, opens: &mut [usize; 32]) -> Seen
    requires { (s.instructions < most_instructions) × (s.depth < most_levels) × Sound s opens.old }
    ensures { (x : test.Test) → Advanced (check.next n (line.if_line x)) s opens.old result opens.new }
{
    opens[s.depth] = n;
    opens[s.depth + 16] = 0;
    Seen {
        instructions: s.instructions + 1,
        depth: s.depth + 1,
        ..s
    }
}

// The `else` of the innermost if.
fn turned(s: Seen, opens: &mut [usize; 32]) -> Seen
    requires { (s.instructions < most_instructions) × (0 < s.depth) × Sound s opens.old }
    ensures { (n : ℕ) → Advanced (check.next n line.else_line) s opens.old result opens.new }
{
    opens[s.depth - 1 + 16] = 1;
    Seen {
        instructions: s.instructions + 1,
        ..s
    }
}

// The `fi` of the innermost if.
fn closed(s: Seen) -> Seen
    requires { 0 < s.depth }
    ensures { (n : ℕ) (os : List ℕ) → Sound s os → Advanced (check.next n line.fi_line) s os result os }
{
    Seen {
        depth: s.depth - 1,
        ..s
    }
}
