// A guide's blocks, where they stand in its text.
// specs/Block.antt says which block a list of lines is, specs/Guide.antt what an accepted guide is, and specs/Lines.antt what the lines are
// from a place of the text on. Readers of the line at a place, of its role alone, and of the end of a block that is not walked. No line from
// the place on is a fault: an accepted guide has none.
#![tactic(auto)]

mod places;
mod roles;

use lines::Head;
pub use places::{line_at, pass_over, role_at};
pub use roles::{begins, is_else};

// What a line is in a block.
#[derive(Clone, Copy, Debug, PartialEq, Eq)]
pub enum Role {
    // `input`, `inputs`, `print` or `printex`.
    Statement,
    If,
    Else,
    Fi,
    // No line of a block, or no line at all.
    Nothing,
}

// A line: its role and its head, where it starts and ends, and where the next line starts.
#[derive(Clone, Copy, Debug, PartialEq, Eq)]
pub struct Here {
    pub role: Role,
    pub head: Head,
    pub start: usize,
    pub end: usize,
    pub next: usize,
}

// A line's role, and where the next line starts.
#[derive(Clone, Copy, Debug, PartialEq, Eq)]
pub struct LineRole {
    pub role: Role,
    pub next: usize,
}
