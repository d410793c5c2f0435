// Where a program takes its tape from: the file that its first argument names, or standard input where there is none (D27).
#![tactic(auto)]

use buffers::Page;
use std::env::{Env, FillError};
use std::fmt::Write;
use std::fs::File;
use std::io::Error;
use std::os::fd::IntoRawFd;
use std::rt::Files;

// Why a program has no tape: its file cannot be opened, which is told on standard error, or it is longer than the buffer for it.
#[derive(Clone, Copy, PartialEq, Eq)]
pub enum NoTape {
    Unopened,
    TooLong,
}

// Says on standard error what failed and why.
fn tell(what: &[u8], why: &[u8]) {
    io::write_all(2, what);
    io::write_all(2, b": ");
    io::write_all(2, why);
    io::write_all(2, b"\n");
}

// What the system says of an error, without the number that stands in brackets behind it.
fn words(said: &[u8]) -> &[u8] {
    str::from_utf8(said)
        .ok()
        .and_then(|text| text.split_once(" (os error "))
        .map_or(said, |(before, _)| before.as_bytes())
}

// The same of a call of the system. Its words have room in 256 bytes, so that no memory is asked for.
fn tell_error(what: &[u8], error: Error) {
    let mut room = [0; 256];
    let mut page = Page::begun(&mut room, 0);
    write!(page, "{error}");
    tell(what, words(page.written()));
}

// The number of the file that a path names, where it can be opened. A path that is not UTF-8 names no file to the library.
fn opened_file<R: Files<File = File>>(rt: &R, path: &[u8]) -> Option<i32> {
    let Ok(name) = str::from_utf8(path) else {
        tell(path, b"Invalid or incomplete multibyte or wide character");
        return None;
    };
    match File::open(rt, name) {
        Ok(file) => Some(file.into_raw_fd()),
        Err(error) => {
            tell_error(path, error);
            None
        }
    }
}

// The input's number, where it can be opened; where not, that is told on standard error.
fn opened<R: Env + Files<File = File>>(rt: &R) -> Option<i32> {
    let mut path = io::buffer();
    match rt.arg(1, &mut path) {
        Ok(n) => opened_file(rt, &path[..n]),
        Err(FillError::NotPresent) => Some(0),
        Err(FillError::TooLong) => {
            tell(b"tape", b"File name too long");
            None
        }
    }
}

// Whether there is a byte more. After as many as a tape may have, it is one too many.
fn has_more(fd: i32) -> bool {
    io::read_full(fd, &mut [0; 1]) != 0
}

// The tape, read into a buffer.
pub fn taken<'a, R: Env + Files<File = File>>(
    rt: &R,
    buffer: &'a mut [u8],
) -> Result<&'a [u8], NoTape> {
    let fd = opened(rt).ok_or(NoTape::Unopened)?;
    let n = io::read_full(fd, buffer);
    if has_more(fd) {
        return Err(NoTape::TooLong);
    }
    Ok(&buffer[..n])
}
