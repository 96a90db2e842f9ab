// The role of a line in a block, and what it means to a walk.
ghost use Rattle.std.specs.Prelude.{◌≡◌, ◌<◌};
ghost use Rattle.guide.specs.Lines.{role_by, role_by_kind, begins_by, else_by};
ghost use Rattle.guide.specs.Lines as lines;

use crate::Role;
use lines::{Head, Kind};

pub fn role_of(head: Head) -> Role
    ensures { result ≡ role_by head }
{
    match head {
        Head::Input { .. } | Head::Inputs { .. } | Head::Print | Head::Printex => Role::Statement,
        Head::If { .. } => Role::If,
        Head::Else => Role::Else,
        Head::Fi => Role::Fi,
        Head::Phrase | Head::Goto { .. } | Head::IfSkip { .. } => Role::Nothing,
    }
}

pub fn role_of_kind(kind: Kind) -> Role
    ensures { result ≡ role_by_kind kind }
{
    match kind {
        Kind::Input | Kind::Inputs | Kind::Print | Kind::Printex => Role::Statement,
        Kind::If => Role::If,
        Kind::Else => Role::Else,
        Kind::Fi => Role::Fi,
        Kind::Phrase | Kind::Goto => Role::Nothing,
    }
}

// Whether a statement or an if begins here.
pub fn begins(role: Role) -> bool
    ensures { result ≡ begins_by role }
{
    matches!(role, Role::Statement | Role::If)
}

pub fn is_else(role: Role) -> bool
    ensures { result ≡ else_by role }
{
    matches!(role, Role::Else)
}

// Whether a block ends at this line, where d inner ifs are open.
pub fn stops(role: Role, d: usize) -> bool
    ensures { result ≡ lines.stops role d }
{
    match role {
        Role::Statement | Role::If => false,
        Role::Else | Role::Fi => d == 0,
        Role::Nothing => true,
    }
}

// How many inner ifs are open behind this line.
pub fn open_behind(role: Role, d: usize) -> usize
    requires { d < 18446744073709551615 }
    ensures { result ≡ lines.open_behind role d }
{
    match role {
        Role::If => d + 1,
        Role::Fi => d.saturating_sub(1),
        Role::Statement | Role::Else | Role::Nothing => d,
    }
}
