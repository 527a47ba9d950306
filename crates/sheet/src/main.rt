// Prints the sheet of all factors of the record files that its arguments name: the lines of each, and the closing line. Every byte of the sheet is the
// library's; this program opens, reads and writes.

#![tactic(auto)]

mod help;
mod trouble;

use files::NAME;
use listing::Totals;
use std::fs::File;
use std::io;

// The longest file that is not refused, of version 2, has 32,784 bytes; what stands behind one byte more changes nothing in a file's lines.
const LONGEST: usize = 32785;
// Room for the lines of a record, and for the closing line.
const ROOM: usize = 4608;

// Help, or the sheet of the files that are named, or how the program is called.
fn main(rt: HostRuntime) {
    let mut room = [0u8; NAME];
    let alone = files::argument(&rt, 2, &mut [0; NAME]).is_none();
    match files::argument(&rt, 1, &mut room) {
        None => help::usage(&rt),
        Some(Ok(b"--help")) if alone => help::help(&rt),
        Some(_) => sheet(&rt),
    }
}

// The lines of each file, and the closing line.
fn sheet(rt: &HostRuntime) {
    let mut totals = Totals { k: 0, c: 0 };
    for i in 1..usize::MAX {
        let mut room = [0u8; NAME];
        match files::argument(rt, i, &mut room) {
            Some(word) => totals = argument(rt, i, word, totals),
            None => break,
        }
    }
    close(rt, totals);
}

// The lines of the file that an argument names, and the totals with them.
fn argument(rt: &HostRuntime, i: usize, word: io::Result<&[u8]>, totals: Totals) -> Totals {
    match word {
        Ok(path) => file(rt, path, totals),
        Err(error) => {
            trouble::argument(rt, i, error);
            show(rt, b"", totals)
        }
    }
}

// The file, opened and closed. One that cannot be opened has no byte here.
fn file(rt: &HostRuntime, path: &[u8], totals: Totals) -> Totals {
    match files::open(rt, path) {
        Ok(file) => read(rt, path, file, totals),
        Err(error) => {
            trouble::file(rt, path, error);
            show(rt, b"", totals)
        }
    }
}

// The file, read as far as it matters. One that cannot be read has no byte here.
fn read(rt: &HostRuntime, path: &[u8], mut file: File, totals: Totals) -> Totals {
    let mut bytes = [0u8; LONGEST];
    match files::read(&mut file, &mut bytes) {
        Ok(count) => show(rt, &bytes[..count], totals),
        Err(error) => {
            trouble::file(rt, path, error);
            show(rt, b"", totals)
        }
    }
}

// The lines of a file's bytes, and the totals with them. The room is always enough, and the totals never too large; that is tested, not assumed.
fn show(rt: &HostRuntime, bytes: &[u8], totals: Totals) -> Totals {
    let mut text = [0u8; ROOM];
    match listing::record(bytes, totals, &mut text) {
        Ok(written) => {
            print(rt, &text, written.length);
            written.totals
        }
        Err(refused) => {
            trouble::refused(rt, refused);
            totals
        }
    }
}

// The closing line.
fn close(rt: &HostRuntime, totals: Totals) {
    let mut text = [0u8; ROOM];
    match listing::total(totals, &mut text) {
        Ok(length) => print(rt, &text, length),
        Err(refused) => trouble::refused(rt, refused),
    }
}

// The front of a text to standard output.
fn print(rt: &HostRuntime, text: &[u8], length: u64) {
    if let Err(error) = written(rt, text, length as usize) {
        trouble::file(rt, b"standard output", error);
    }
}

// Writes the front of a text, or gives the error for which not all of it was taken.
fn written(rt: &HostRuntime, text: &[u8], end: usize) -> io::Result<()> {
    match text.get(..end) {
        Some(front) => rt.stdout().write_all(front),
        None => Err(io::Error::from(io::ErrorKind::WriteZero)),
    }
}
