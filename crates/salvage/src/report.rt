// What the program says on standard error, in pieces.
use files::{Pieces, Why};
use mending::Kept;
use record::Refused;
use std::fmt::Write;
use std::io;

// What was kept of a file, and how many of its bytes were left over, those past the longest file among them.
pub(crate) fn kept(rt: &HostRuntime, kept: Kept, past: u64) {
    let left_over = kept.left_over.saturating_add(past);
    let met = if kept.met {
        ", a value out of range was met"
    } else {
        ""
    };
    let mut err = Pieces(rt.stderr());
    let _ = writeln!(
        err,
        "kept {} of {} values, {left_over} bytes left over{met}",
        kept.new_count, kept.old_count
    );
}

// A refusal: its number, the same in words, and its place.
pub(crate) fn refused(rt: &HostRuntime, refused: Refused) {
    let Refused { why, place } = refused;
    let mut err = Pieces(rt.stderr());
    let _ = writeln!(err, "refused {}, {why}, at place {place}", u64::from(why));
}

// What the system could not do, and why. A file's name need not be text.
pub(crate) fn failed(rt: &HostRuntime, what: &[u8], error: io::Error) {
    let mut err = Pieces(rt.stderr());
    let _ = write!(err, "salvage: ");
    let _ = rt.stderr().write_all(what);
    let _ = write!(err, "{}", Why(error));
}
