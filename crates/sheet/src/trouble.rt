// What could not be opened, read or written: a line to standard error, in pieces.
use files::{Pieces, Why};
use record::Refused;
use std::fmt::Write;
use std::io;

// What the system could not do with a file, and why. A file's name need not be text.
pub(crate) fn file(rt: &HostRuntime, path: &[u8], error: io::Error) {
    let mut err = Pieces(rt.stderr());
    let _ = write!(err, "sheet: ");
    let _ = rt.stderr().write_all(path);
    let _ = write!(err, "{}", Why(error));
}

// An argument that could not be taken.
pub(crate) fn argument(rt: &HostRuntime, i: usize, error: io::Error) {
    let mut err = Pieces(rt.stderr());
    let _ = write!(err, "sheet: argument {i}{}", Why(error));
}

// A call that the library refused, which it never does here.
pub(crate) fn refused(rt: &HostRuntime, refused: Refused) {
    let mut err = Pieces(rt.stderr());
    let _ = writeln!(err, "sheet: refused {}", u64::from(refused.why));
}
