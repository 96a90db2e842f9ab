// Lines to standard error. Where standard error takes none, nothing can be told.
ghost use Rattle.std.specs.Prelude.{◌≡◌, IfSome, Ok};

use printed::front;
use std::io::{Cursor, Error, Print, Write};
use std::{io, str};

// Bytes.
fn tell(rt: &HostRuntime, bytes: &[u8]) {
    let _ = Print::write_all(&rt.stderr(), bytes);
}

// A line with a number in it.
pub(crate) fn tell_number(rt: &HostRuntime, first: &str, n: usize, last: &str) {
    let _ = eprintln!(rt; "{first}{n}{last}");
}

// What cannot be read, by its name, and why, in the system's words.
fn tell_error(rt: &HostRuntime, name: &[u8], error: &Error) {
    let mut words = Cursor::new([0; 256]);
    let _ = write!(words, "{error}");
    let length = words.position();
    let text = words.into_inner();
    tell(rt, name);
    tell(rt, b": ");
    tell(rt, system_words(front(&text, length as usize)).as_bytes());
    tell(rt, b"\n");
}

// How much was read. An error is told, by the name of what cannot be read.
pub fn read_or_told(rt: &HostRuntime, name: &[u8], read: io::Result<usize>) -> Option<usize>
    ensures { IfSome result (λ n. read ≡ Ok n) }
{
    match read {
        Ok(n) => Some(n),
        Err(e) => {
            tell_error(rt, name, &e);
            None
        }
    }
}

// The system's words for an error, without its number behind them.
fn system_words(error: &[u8]) -> &str {
    let Ok(text) = str::from_utf8(error) else {
        return "";
    };
    text.rsplit_once(" (os error ")
        .map_or(text, |(words, _)| words)
}
