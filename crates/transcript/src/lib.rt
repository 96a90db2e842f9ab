// What walk and run share: the statements, the state, what one statement does, the test of an if, and the lines of the transcript.
// The definitions are in specs/ (Perform.antt says what a statement does), their laws and worked cases in proofs/. The types are those of the
// code in transcript_lines, machine and statements, whose contracts say what it does by these definitions.
#![tactic(auto)]

use causes::Outcome;

// How an if compares a register with its constant.
#[derive(Clone, Copy, Debug, PartialEq, Eq)]
pub enum Op {
    Eq,
    Ne,
    Lt,
    Le,
    Gt,
    Ge,
}

// The R, OP and C of an if.
#[derive(Clone, Copy, Debug, PartialEq, Eq)]
pub struct Test {
    pub register: usize,
    pub op: Op,
    pub constant: i32,
}

// The numbers of a walk or run: answers taken and steps. Its registers and its transcript stand in what is lent.
#[derive(Clone, Copy, Debug, PartialEq, Eq)]
pub struct Machine {
    pub taken: usize,
    pub steps: usize,
}

// What a statement leaves: the machine, how it ends (End: it goes on), and where the transcript now ends.
#[derive(Clone, Copy)]
pub struct Performed {
    pub machine: Machine,
    pub outcome: Outcome,
    pub end: usize,
}
