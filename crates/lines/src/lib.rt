// The lines of a guide and of a listing: one line by itself, and the check over the lines. Definitions and their laws, no code.
// specs/Line.antt says what a line is, with its cause 3, 4, 5 or, in a guide, 6; specs/Check.antt what the check finds; specs/Clean.antt
// which lines have none of these causes. The types are those of the code in line_reader (any line, judged), accepted_lines (a line that has
// none of these causes, read again) and check_lines (the check), whose contracts say the whole answer by these definitions.
#![tactic(auto)]

use transcript::Test;

// The two texts that are read line by line.
#[derive(Clone, Copy, Debug, PartialEq, Eq)]
pub enum Form {
    Guide,
    Listing,
}

// The kind that a line's first field names.
#[derive(Clone, Copy, Debug, PartialEq, Eq)]
pub enum Kind {
    Phrase,
    Input,
    Inputs,
    Print,
    Printex,
    If,
    Else,
    Fi,
    Goto,
}

// A line without its texts, which stay where they are in the text.
#[derive(Clone, Copy, Debug, PartialEq, Eq)]
pub enum Head {
    Phrase,
    Input { register: usize },
    Inputs { register: usize, options: usize },
    Print,
    Printex,
    If { test: Test },
    Else,
    Fi,
    Goto { skip: usize },
    IfSkip { test: Test, skip: usize },
}

// How many own phrases and instructions a guide or listing has.
#[derive(Clone, Copy, Debug, PartialEq, Eq)]
pub struct Counts {
    pub own: usize,
    pub instructions: usize,
}
