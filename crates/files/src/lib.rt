// What the programs that read record files share: their arguments, the opening and the reading of a file, and the words of errors. What a file's
// bytes say is left to the crates that read them.

#![tactic(auto)]

ghost use Rattle.std.specs.Prelude.{◌≤◌, length, IfOk, IfSome, IsUtf8, OnOk};

use arrayvec::ArrayString;
use std::env::{Env, FillError};
use std::fmt::Write;
use std::io::{ErrorKind, Read, Stderr};
use std::rt::Files;
use std::{fmt, fs, io};

// Room for the longest name that the system takes.
pub const NAME: usize = 4096;
// The number that the system, Linux, gives to a name that is too long.
const ENAMETOOLONG: i32 = 36;
// The number that it gives to a name that is not in UTF-8.
const EILSEQ: i32 = 84;

// An error in the system's words. Its number, which is told behind them, is left out.
#[derive(Clone, Copy)]
pub struct Reason(pub io::Error);

// An error's words to the end of a line, after a colon. One of the kind Interrupted without a number is that of a reading that stopped short and has
// more behind it.
#[derive(Drop)]
pub struct Why(pub io::Error);

// The standard error, to which each piece of a text goes by a write of its own. A write that fails is not told, and the next is tried.
#[derive(Drop)]
pub struct Pieces(pub Stderr);

// Argument i, if there are so many, or the error for which it cannot be taken.
pub fn argument<'a>(
    rt: &impl Env,
    i: usize,
    room: &'a mut [u8; NAME],
) -> Option<io::Result<&'a [u8]>>
    ensures { IfSome result (λ taken. IfOk taken (λ word. length word.now ≤ 4096)) }
{
    match rt.arg(i, room) {
        Ok(length) => Some(Ok(&room[..length])),
        Err(FillError::TooLong) => Some(Err(io::Error::from_raw_os_error(ENAMETOOLONG))),
        Err(FillError::NotPresent) => None,
    }
}

// The file of that name. The system's files are opened by names in UTF-8 alone.
pub fn open<R: Files>(rt: &R, name: &[u8]) -> io::Result<R::File>
    ensures { OnOk result (IsUtf8 name.now) }
{
    match str::from_utf8(name) {
        Ok(name) => fs::open(rt, name),
        Err(_) => Err(io::Error::from_raw_os_error(EILSEQ)),
    }
}

// How many bytes of a file were read: as many as there is room for, or all. A read that finds more where the one before it stopped short was
// interrupted.
pub fn read(file: &mut impl Read, bytes: &mut [u8]) -> io::Result<usize>
    ensures { IfOk result (λ count. count ≤ length bytes.new) }
{
    let count = filled(file, bytes);
    if count == bytes.len() {
        return Ok(count);
    }
    match file.read(&mut [0])? {
        0 => Ok(count),
        _ => Err(io::Error::from(ErrorKind::Interrupted)),
    }
}

// How many bytes were read: until there is no more room, until the file's end, or until a read fails.
pub fn filled(file: &mut impl Read, bytes: &mut [u8]) -> usize
    ensures { result ≤ length bytes.new }
{
    let mut done = 0;
    for _ in 0..bytes.len() {
        if done == bytes.len() {
            return done;
        }
        match file.read(&mut bytes[done..]) {
            Ok(0) | Err(_) => return done,
            Ok(got) => done += got,
        }
    }
    done
}

impl fmt::Write for Pieces {
    fn write_str(&mut self, s: &str) -> fmt::Result {
        let _ = self.0.write_all(s.as_bytes());
        Ok(())
    }
}

impl fmt::Display for Reason {
    fn fmt<W: fmt::Write>(&self, f: &mut fmt::Formatter<W>) -> fmt::Result {
        // The system's longest words have some fifty bytes.
        let mut text = ArrayString::<128>::new();
        let _ = write!(text, "{}", self.0);
        let words = text.as_str();
        f.write_str(
            words
                .split_once(" (os error ")
                .map_or(words, |(before, _)| before),
        )
    }
}

impl fmt::Display for Why {
    fn fmt<W: fmt::Write>(&self, f: &mut fmt::Formatter<W>) -> fmt::Result {
        match (self.0.kind(), self.0.raw_os_error()) {
            (ErrorKind::Interrupted, None) => f.write_str(": the reading was interrupted\n"),
            _ => writeln!(f, ": {}", Reason(self.0)),
        }
    }
}
