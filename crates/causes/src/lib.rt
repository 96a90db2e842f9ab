#![tactic(auto)]

ghost use Rattle.std.specs.Prelude.{◌≡◌};
ghost use Rattle.causes.specs.Causes.{number, outcome_number, wrong_answers};

// Why a call refuses, and what the five calls answer.
// A Cause is a row of document 01's table of causes; a Refusal adds the place. The paper's number for each cause, and its values
// for each answer, are said in specs/Causes.antt and specs/Answers.antt; every promise of a call is stated through them.

pub mod limits;

// The causes, in the order of their numbers, 1 to 15.
#[derive(Clone, Copy, Debug, PartialEq, Eq)]
pub enum Cause {
    // The phrase book: over 256 phrases, a bad or repeated text, no last LF.
    Book,
    // Guide or listing too long.
    TooLong,
    // Byte not allowed, ill-formed UTF-8, or last line without LF.
    Byte,
    // Unknown kind or wrong count of fields.
    Kind,
    // Field value outside its rule.
    Value,
    // Phrase in a guide; in a listing late, 33rd, or repeated.
    Phrase,
    // else or fi without its if, second else, 17th level, if left open.
    Nesting,
    // Skip past n.
    Skip,
    // 513th instruction.
    Instructions,
    // Plate over 2,953 bytes.
    PlateTooLong,
    // Lent output shorter than the result, or scratch too short.
    TooShort,
    // Plate ends inside a field.
    PlateEnds,
    // Unused code, n over 512, phrase that isn't there.
    Unused,
    // Character not allowed, text of 0 or over 64, phrase spelled out or repeated, 32 bits for a 16-bit constant.
    Spelling,
    // A one among the filling bits, or a whole spare byte.
    Filling,
}

// A refusal: the cause, and the line, the bit or the 0 that document 01 returns with it.
#[derive(Clone, Copy, Debug, PartialEq, Eq)]
pub struct Refusal {
    pub cause: Cause,
    pub place: usize,
}

// How a walk or a run ends.
#[derive(Clone, Copy, Debug, PartialEq, Eq)]
pub enum Outcome {
    Verdict,
    End,
    // After so many wrong answers to the present question.
    Waiting { wrong: u8 },
    Outside,
}

// What a walk or a run returns: the transcript's length, the outcome, with the wrong answers so far where it waits, the answers taken and the steps.
#[derive(Clone, Copy, Debug, PartialEq, Eq)]
pub struct Report {
    pub length: usize,
    pub outcome: Outcome,
    pub taken: usize,
    pub steps: usize,
}

// The answer of translate, write_plate and read_plate: the result's length, or a refusal.
pub type Written = Result<usize, Refusal>;

// The answer of walk and run.
pub type Ran = Result<Report, Refusal>;

// The paper's number of a cause.
impl From<Cause> for u32 {
    ghost from_gives = { λ cause n. n ≡ number cause };

    fn from(cause: Cause) -> u32 {
        match cause {
            Cause::Book => 1,
            Cause::TooLong => 2,
            Cause::Byte => 3,
            Cause::Kind => 4,
            Cause::Value => 5,
            Cause::Phrase => 6,
            Cause::Nesting => 7,
            Cause::Skip => 8,
            Cause::Instructions => 9,
            Cause::PlateTooLong => 10,
            Cause::TooShort => 11,
            Cause::PlateEnds => 12,
            Cause::Unused => 13,
            Cause::Spelling => 14,
            Cause::Filling => 15,
        }
    }
}

// The paper's number of an outcome.
impl From<Outcome> for u32 {
    ghost from_gives = { λ outcome n. n ≡ outcome_number outcome };

    fn from(outcome: Outcome) -> u32 {
        match outcome {
            Outcome::Verdict => 0,
            Outcome::End => 1,
            Outcome::Waiting { .. } => 2,
            Outcome::Outside => 3,
        }
    }
}

impl Outcome {
    // The wrong answers so far in the present question.
    pub fn wrong(self) -> u32
        ensures { result ≡ wrong_answers self }
    {
        match self {
            Outcome::Verdict | Outcome::End => 0,
            Outcome::Waiting { wrong } => wrong as u32,
            Outcome::Outside => 3,
        }
    }
}
