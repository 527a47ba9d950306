// A line that is collected first and then written in one call, so that two programs that write to one file do not mix inside a line.
ghost use Rattle.std.specs.Prelude.{◌≤◌};

use std::fmt;

// Room for a name of 4,096 bytes and for all that is said of it.
const ROOM: usize = 4608;

// What a line has so far. A byte that has no room is left out.
#[derive(Drop)]
pub(crate) struct Line {
    bytes: [u8; ROOM],
    end: usize,
    ghost inside: { end ≤ 4608 },
}

impl Line {
    // The beginning of a line: a few words, and a file's name. A control byte, which a name may have, becomes a question mark, so that a line stays one
    // line.
    pub(crate) fn begun(words: &[u8], name: &[u8]) -> Line {
        let mut line = Line {
            bytes: [0; ROOM],
            end: 0,
        };
        line.put(words);
        for b in name {
            line.put(&[shown(*b)]);
        }
        line
    }

    // Writes bytes.
    pub(crate) fn put(&mut self, bytes: &[u8]) {
        for b in bytes {
            if self.end < ROOM {
                self.bytes[self.end] = *b;
                self.end += 1;
            }
        }
    }

    // The line so far.
    pub(crate) fn bytes(&self) -> &[u8] {
        &self.bytes[..self.end]
    }
}

// A write never fails.
impl fmt::Write for Line {
    fn write_str(&mut self, s: &str) -> fmt::Result {
        self.put(s.as_bytes());
        Ok(())
    }
}

// A byte as a line shows it.
fn shown(b: u8) -> u8 {
    if b.is_ascii_control() { b'?' } else { b }
}
