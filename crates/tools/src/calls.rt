// A tool's call, with the book and the answers that its arguments give, and what is printed of its answer.
ghost use Rattle.std.specs.Prelude.{◌≡◌, length};

use crate::answers::read_answers;
use crate::files::read_file;
use crate::{ANSWERS, BOOK};
use causes::{Ran, Refusal, Report, Written};
use printed::front;
use refusal_words::Counted;
use std::io;

// A refusal: its line to standard output, plain words to standard error. The one has at most 32 bytes, the other at most 160.
fn refuse(rt: &HostRuntime, counted: Counted, r: Refusal) -> io::Result<()> {
    let mut line = [0; 64];
    let end = printed::put_refused(&mut line, 0, r);
    rt.write_all(front(&line, end))?;
    let mut words = [0; 256];
    let end = refusal_words::put_words(&mut words, 0, counted, r);
    rt.stderr().write_all(front(&words, end))
}

// The transcript, and the line behind it, which has at most 73 bytes.
fn report(rt: &impl Print, transcript: &[u8], r: Report) -> io::Result<()> {
    rt.write_all(front(transcript, r.length))?;
    let mut line = [0; 128];
    let end = printed::put_report(&mut line, 0, r);
    rt.write_all(front(&line, end))
}

// Makes a call with the book of argument 2, if that can be read, and prints by `show` the result that it leaves at the front of `out`, or its
// refusal.
pub fn with_book<F: FnOnce(&[u8], &mut [u8]) -> Written, G: FnOnce(&[u8]) -> io::Result<()>>(
    rt: &HostRuntime,
    counted: Counted,
    out: &mut [u8],
    call: F,
    show: G,
) -> io::Result<()>
    requires callable { F.IsAlwaysCallable call }
    requires showable { G.IsAlwaysCallable show }
    ensures { length out.new ≡ length out.old }
{
    let mut book = [0; BOOK];
    let Some(length) = read_file(rt, 2, &mut book) else {
        return Ok(());
    };
    match call(&book[..length], out) {
        Err(r) => refuse(rt, counted, r),
        Ok(n) => show(front(out, n)),
    }
}

// Walks or runs with the book of argument 2 and the answers from argument 3 on, if they can be read, and prints the transcript, which the call
// leaves in the lent space, and the report, or the refusal.
pub fn with_answers<F: FnOnce(&[u8], &[i32], &mut [u8]) -> Ran>(
    rt: &HostRuntime,
    counted: Counted,
    transcript: &mut [u8],
    call: F,
) -> io::Result<()>
    requires { F.IsAlwaysCallable call }
    ensures { length transcript.new ≡ length transcript.old }
{
    let mut book = [0; BOOK];
    let Some(length) = read_file(rt, 2, &mut book) else {
        return Ok(());
    };
    let mut answers = [0; ANSWERS];
    let Some(count) = read_answers(rt, 3, &mut answers) else {
        return Ok(());
    };
    match call(&book[..length], &answers[..count], transcript) {
        Err(r) => refuse(rt, counted, r),
        Ok(r) => report(rt, transcript, r),
    }
}
