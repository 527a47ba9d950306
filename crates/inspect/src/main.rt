// Reads record files of either version that its arguments name, and writes for each a line with its version, its kind, its count and its figures, or
// what it is refused for. A frequency record is turned into phase first, from its start. What is read is worked by the library; this program opens, reads and prints.

#![tactic(auto)]

mod contents;
mod figures;
mod help;
mod line;
mod trouble;

use files::NAME;
use std::fs::File;
use std::io;

// The longest sound file, of version 2, has 262,160 bytes, so that one byte more tells a longer one.
const LONGEST: usize = 262161;

// What each argument asks for, or how the program is called.
fn main(rt: HostRuntime) {
    if files::argument(&rt, 1, &mut [0; NAME]).is_none() {
        help::usage(&rt);
    }
    for i in 1..usize::MAX {
        let mut room = [0u8; NAME];
        match files::argument(&rt, i, &mut room) {
            Some(word) => argument(&rt, i, word),
            None => return,
        }
    }
}

// Help, or the line of the file that an argument names, or why there is none.
fn argument(rt: &HostRuntime, i: usize, word: io::Result<&[u8]>) {
    match word {
        Ok(b"-h" | b"--help") => help::help(rt),
        Ok(path) => file(rt, path),
        Err(error) => trouble::argument(rt, i, error),
    }
}

// The line of the file of that name, or why there is none.
fn file(rt: &HostRuntime, path: &[u8]) {
    match files::open(rt, path) {
        Ok(file) => read(rt, path, file),
        Err(error) => trouble::file(rt, path, "opened", error),
    }
}

// The line of an open file, which is closed at the end.
fn read(rt: &HostRuntime, path: &[u8], mut file: File) {
    let mut bytes = [0u8; LONGEST];
    match files::read(&mut file, &mut bytes) {
        Ok(count) => contents::show(rt, path, &bytes[..count]),
        Err(error) => trouble::file(rt, path, "read", error),
    }
}
