// What could not be opened, read or written: a line to standard error.
use crate::line::Line;
use std::fmt::Write;
use std::io::ErrorKind;
use std::{fmt, io};

// The number that the system, Linux, gives to an error of input or output.
const EIO: i32 = 5;
// The number that it gives where permission is denied.
const EACCES: i32 = 13;
// The number that it gives where too many files are open.
const EMFILE: i32 = 24;

// An error of the system, in words or, where it has none here, by its number.
#[derive(Clone, Copy)]
struct Reason(io::Error);

impl fmt::Display for Reason {
    fn fmt<W: fmt::Write>(&self, f: &mut fmt::Formatter<W>) -> fmt::Result {
        let code = self.0.raw_os_error().unwrap_or(0);
        match (self.0.kind(), code) {
            (ErrorKind::NotFound, _) => f.write_str("no such file or directory"),
            (ErrorKind::Interrupted, _) => f.write_str("interrupted"),
            (ErrorKind::NotADirectory, _) => f.write_str("not a directory"),
            (ErrorKind::IsADirectory, _) => f.write_str("is a directory"),
            (ErrorKind::StorageFull, _) => f.write_str("no space left on device"),
            (ErrorKind::InvalidFilename, _) => f.write_str("file name too long"),
            (_, EIO) => f.write_str("input or output error"),
            (_, EACCES) => f.write_str("permission denied"),
            (_, EMFILE) => f.write_str("too many open files"),
            _ => write!(f, "error {code}"),
        }
    }
}

// What could not be done with a file, and why.
pub(crate) fn file(rt: &HostRuntime, path: &[u8], done: &str, error: io::Error) {
    let mut line = Line::begun(b"inspect: ", path);
    let _ = writeln!(line, ": cannot be {done}: {}", Reason(error));
    let _ = rt.stderr().write_all(line.bytes());
}

// An argument that could not be taken.
pub(crate) fn argument(rt: &HostRuntime, i: usize, error: io::Error) {
    let _ = eprintln!(rt;
        "inspect: argument {i}: cannot be opened: {}",
        Reason(error)
    );
}
