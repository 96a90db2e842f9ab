// Input files.
ghost use Rattle.std.specs.Prelude.{◌≤◌, length, IfOk, IfSome};

use crate::reading::read_full;
use crate::telling::{read_or_told, tell_number};
use printed::front;
use std::env::{Env, FillError};
use std::fs::File;
use std::io::Error;
use std::{fs, io, str};

// The system's numbers of the errors of an argument that is missing, of one that is too long, and of a name that is no text.
const MISSING: i32 = 22;

const TOO_LONG: i32 = 36;

const NO_TEXT: i32 = 84;

// The most bytes of an argument that names a file.
const NAME: usize = 4096;

// More than the longest text of a plate that is ever read: of a longer one no more is looked at.
const PLATE_TEXT: usize = 65536;

// A file, opened by its name. The standard library opens none whose name is not UTF-8.
fn open(rt: &HostRuntime, name: &[u8]) -> io::Result<File> {
    let path = str::from_utf8(name).map_err(|_| Error::from_raw_os_error(NO_TEXT))?;
    fs::open(rt, path)
}

// Reads the file of a name, as far as the space goes; `-` is standard input.
fn read_named(rt: &HostRuntime, name: &[u8], space: &mut [u8]) -> io::Result<usize>
    ensures { IfOk result (λ n. n ≤ length space.new) }
{
    if matches!(name, b"-") {
        return read_full(&mut rt.stdin(), space);
    }
    read_full(&mut open(rt, name)?, space)
}

// Why an argument is no name.
fn argument_error(e: FillError) -> Error {
    match e {
        FillError::NotPresent => Error::from_raw_os_error(MISSING),
        FillError::TooLong => Error::from_raw_os_error(TOO_LONG),
    }
}

// The file that argument i names, as far as the space goes.
pub fn read_file(rt: &HostRuntime, i: usize, space: &mut [u8]) -> Option<usize>
    ensures { IfSome result (λ n. n ≤ length space.new) }
{
    let mut name = [0; NAME];
    let length = read_or_told(
        rt,
        b"argument",
        rt.arg(i, &mut name).map_err(argument_error),
    )?;
    let name = front(&name, length);
    read_or_told(rt, name, read_named(rt, name, space))
}

// The plate that the file of argument i has in hexadecimal, as far as the space goes. What stands behind a plate that is longer than
// the space is not looked at.
pub fn read_plate(rt: &HostRuntime, i: usize, plate: &mut [u8]) -> Option<usize>
    ensures { IfSome result (λ n. n ≤ length plate.new) }
{
    let mut text = [0; PLATE_TEXT];
    let n = read_file(rt, i, &mut text)?;
    let found = hex_pairs::read_pairs(front(&text, n), plate);
    if plate.len() <= found.count {
        return Some(plate.len());
    }
    if text.len() <= n {
        tell_number(rt, "plate file of more than ", n - 1, " bytes");
        return None;
    }
    if 0 < found.fault {
        tell_number(
            rt,
            "plate file, line ",
            found.fault,
            ": not pairs of hexadecimal digits",
        );
        return None;
    }
    Some(found.count)
}
