// More answers only lengthen the record: document 02, n).
ghost use Rattle.std.specs.Prelude.{◌≡◌, length, take};
ghost use Rattle.causes.specs.Answers.{ran_answer};
ghost use Rattle.running.specs.Call.{run_call};
ghost use Rattle.running.specs.More.{CallsLengthen};

use causes::Ran;

// What the run on the first answers gives, and the run on all of them.
#[derive(Clone, Copy)]
pub struct Runs {
    pub first: Ran,
    pub all: Ran,
}

// The first n answers, or all where there are fewer.
fn front(answers: &[i32], n: usize) -> &[i32]
    ensures { result.now ≡ take n answers.now }
{
    if n < answers.len() {
        return &answers[..n];
    }
    answers
}

// A plate is run on the first n answers, and then on all of them, into two buffers.
pub fn run_and_go_on(
    plate: &[u8],
    book: &[u8],
    answers: &[i32],
    n: usize,
    scratch: &mut [u16],
    first: &mut [u8],
    all: &mut [u8],
) -> Runs
    ensures first_after { (ran_answer result.first, first.new) ≡ run_call plate.now book.now (take n answers.now) (length scratch.old) first.old }
    ensures all_after { (ran_answer result.all, all.new) ≡ run_call plate.now book.now answers.now (length scratch.old) all.old }
    ensures calls_lengthen { CallsLengthen (ran_answer result.first, first.new) (ran_answer result.all, all.new) }
    ensures scratch_unchanged { scratch.new ≡ scratch.old }
{
    let short = run::run(plate, book, front(answers, n), scratch, first);
    let long = run::run(plate, book, answers, scratch, all);
    Runs {
        first: short,
        all: long,
    }
}
