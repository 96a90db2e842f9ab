// The five calls with the answers that C gets: crate doorplate_c exports them, and include/doorplate.h declares them.
// Each call has no precondition and promises every field of its answer and the later content of every buffer it was lent,
// through the definition of the call and the values that specs/Values.antt gives an answer.
#![tactic(auto)]

ghost use Rattle.std.specs.Prelude.{◌≡◌, length};
ghost use Rattle.causes.specs.Answers.{written_answer, ran_answer};
ghost use Rattle.translating.specs.Call.{translate_call};
ghost use Rattle.listing.specs.Calls.{write_plate_call, read_plate_call};
ghost use Rattle.walking.specs.Call.{walk_call};
ghost use Rattle.running.specs.Call.{run_call};
ghost use Rattle.doorplate.specs.Values.{written_values, ran_values, WrittenIs, RanIs};

use causes::{Ran, Written};

// doorplate_written in C: number 0 and the length, or a refusal's number and place.
#[repr(C)]
#[derive(Clone, Copy, Debug, PartialEq, Eq)]
pub struct WrittenValues {
    pub number: u32,
    pub place: u64,
    pub length: u64,
}

// doorplate_ran in C: number 0 and the record of the run, or a refusal's number and place.
#[repr(C)]
#[derive(Clone, Copy, Debug, PartialEq, Eq)]
pub struct RanValues {
    pub number: u32,
    pub place: u64,
    pub length: u64,
    pub outcome: u32,
    pub taken: u64,
    pub steps: u64,
    pub wrong: u32,
}

// The values of an answer of translate, write_plate or read_plate.
impl From<Written> for WrittenValues {
    ghost from_gives = { λ answer values. values ≡ written_values (written_answer answer) };

    fn from(answer: Written) -> WrittenValues {
        match answer {
            Ok(length) => WrittenValues {
                number: 0,
                place: 0,
                length: length as u64,
            },
            Err(r) => WrittenValues {
                number: u32::from(r.cause),
                place: r.place as u64,
                length: 0,
            },
        }
    }
}

// The values of an answer of walk or run.
impl From<Ran> for RanValues {
    ghost from_gives = { λ answer values. values ≡ ran_values (ran_answer answer) };

    fn from(answer: Ran) -> RanValues {
        match answer {
            Ok(report) => RanValues {
                number: 0,
                place: 0,
                length: report.length as u64,
                outcome: u32::from(report.outcome),
                taken: report.taken as u64,
                steps: report.steps as u64,
                wrong: report.outcome.wrong(),
            },
            Err(r) => RanValues {
                number: u32::from(r.cause),
                place: r.place as u64,
                length: 0,
                outcome: 0,
                taken: 0,
                steps: 0,
                wrong: 0,
            },
        }
    }
}

// The plate of a guide.
pub fn doorplate_translate(guide: &[u8], book: &[u8], plate: &mut [u8]) -> WrittenValues
    ensures { WrittenIs result plate.new (translate_call guide.now book.now plate.old) }
{
    translate::translate(guide, book, plate).into()
}

// The plate of a listing.
pub fn doorplate_write_plate(listing: &[u8], book: &[u8], plate: &mut [u8]) -> WrittenValues
    ensures { WrittenIs result plate.new (write_plate_call listing.now book.now plate.old) }
{
    write_plate::write_plate(listing, book, plate).into()
}

// The listing of a plate.
pub fn doorplate_read_plate(plate: &[u8], book: &[u8], listing: &mut [u8]) -> WrittenValues
    ensures { WrittenIs result listing.new (read_plate_call plate.now book.now listing.old) }
{
    read_plate::read_plate(plate, book, listing).into()
}

// The transcript of a guide, walked on the answers.
pub fn doorplate_walk(
    guide: &[u8],
    book: &[u8],
    answers: &[i32],
    transcript: &mut [u8],
) -> RanValues
    ensures { RanIs result transcript.new (walk_call guide.now book.now answers.now transcript.old) }
{
    walk::walk(guide, book, answers, transcript).into()
}

// The transcript of a plate, run on the answers.
pub fn doorplate_run(
    plate: &[u8],
    book: &[u8],
    answers: &[i32],
    scratch: &mut [u16],
    transcript: &mut [u8],
) -> RanValues
    ensures ran_is { RanIs result transcript.new (run_call plate.now book.now answers.now (length scratch.old) transcript.old) }
    ensures scratch_unchanged { scratch.new ≡ scratch.old }
{
    run::run(plate, book, answers, scratch, transcript).into()
}
