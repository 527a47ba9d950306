// Mends the damaged record file that its argument names: the proper file that can still be had of it goes to standard output, and a line of report to
// standard error. What is kept is worked by the library; this program opens, reads and writes.

#![tactic(auto)]

mod help;
mod report;

ghost use Rattle.std.specs.Prelude.{◌≤◌, length, IfOk};

use files::NAME;
use mending::Kept;
use std::fs::File;
use std::io;
use std::io::{ErrorKind, Read};

// The longest sound file, of version 2, has so many bytes.
const LONGEST: usize = 262160;

// What the one argument asks for, or how the program is called.
fn main(rt: HostRuntime) {
    let mut room = [0u8; NAME];
    let alone = files::argument(&rt, 2, &mut [0; NAME]).is_none();
    match files::argument(&rt, 1, &mut room) {
        Some(word) if alone => argument(&rt, word),
        _ => help::usage(&rt),
    }
}

// Help, or the file of that name.
fn argument(rt: &HostRuntime, word: io::Result<&[u8]>) {
    match word {
        Ok(b"-h" | b"--help") => help::help(rt),
        Ok(path) => file(rt, path),
        Err(error) => report::failed(rt, b"argument 1", error),
    }
}

// The file, opened and closed.
fn file(rt: &HostRuntime, path: &[u8]) {
    match files::open(rt, path) {
        Ok(file) => whole(rt, path, file),
        Err(error) => report::failed(rt, path, error),
    }
}

// The file, read to its end: as many bytes as the longest file has are taken, and what comes past them is counted.
fn whole(rt: &HostRuntime, path: &[u8], mut file: File) {
    let mut bytes = [0u8; LONGEST];
    match read(&mut file, &mut bytes) {
        Ok((count, past)) => mend(rt, &bytes[..count], past),
        Err(error) => report::failed(rt, path, error),
    }
}

// How many bytes were read, and how many came past them, unless the reading was interrupted: then more came where it had stopped short.
fn read(file: &mut File, bytes: &mut [u8]) -> io::Result<(usize, u64)>
    ensures { IfOk result (λ counts. counts.0 ≤ length bytes.new) }
{
    let count = files::filled(file, bytes);
    let past = rest(file)?;
    if count < bytes.len() && 0 < past {
        return Err(io::Error::from(ErrorKind::Interrupted));
    }
    Ok((count, past))
}

// How many bytes still come. A proved loop has to end: this one takes turns up to a number that no file uses up.
fn rest(file: &mut File) -> io::Result<u64> {
    let mut space = [0u8; 65536];
    let mut count: u64 = 0;
    for _ in 0..u64::MAX {
        match file.read(&mut space)? {
            0 => return Ok(count),
            got => count = count.saturating_add(got as u64),
        }
    }
    Ok(count)
}

// The mended file, then the report; or the refusal alone.
fn mend(rt: &HostRuntime, bytes: &[u8], past: u64) {
    let mut buffer = [0u8; LONGEST];
    match mending::mended(bytes, &mut buffer) {
        Ok(kept) => deliver(rt, &buffer, bytes.len(), kept, past),
        Err(refused) => report::refused(rt, refused),
    }
}

// The mended file, then the report of what was kept.
fn deliver(rt: &HostRuntime, buffer: &[u8], length: usize, kept: Kept, past: u64) {
    match written(rt, buffer, length, kept.left_over) {
        Ok(()) => report::kept(rt, kept, past),
        Err(error) => report::failed(rt, b"standard output", error),
    }
}

// Writes the new file from the front of the buffer, or gives the error for which not all of it was taken. Its length is the damaged file's less the
// bytes left over, never more than the buffer's; that is tested, not assumed.
fn written(rt: &HostRuntime, buffer: &[u8], length: usize, left_over: u64) -> io::Result<()> {
    let end = length.checked_sub(left_over as usize);
    match end.and_then(|end| buffer.get(..end)) {
        Some(file) => rt.stdout().write_all(file),
        None => Err(io::Error::from(ErrorKind::WriteZero)),
    }
}
