// A text that is written from its front on, in an array of so many bytes.
ghost use Rattle.std.specs.Prelude.{◌≡◌, [], ◌∷◌, ◌++◌, ◌+◌, ◌≤◌, length, take, ltb, List, ℕ};
ghost use Rattle.record.specs.Refusals.{refused_if};
ghost use Rattle.record.specs.Answers.{count_answer, buffer_left};
ghost use Rattle.record.specs.Told.{count_told};
ghost use Rattle.wide.specs.Wide.{value};
ghost use Rattle.decimal.specs.Decimal.{decimal};
ghost use Rattle.listing.specs.Columns.{signed_decimal};

use record::{Ground, Refused};
use std::marker::Model;
use wide::Wide;

// Every text of a record has fewer bytes: eleven lines of at most 405.
pub(crate) const LINES: usize = 4608;
// The closing line has at most so many: two numbers of one word, with what stands before and behind each.
pub(crate) const CLOSING: usize = 86;

// What was written so far, in contracts a list of bytes.
#[derive(Drop)]
pub(crate) struct Text<const ROOM: usize> {
    bytes: [u8; ROOM],
    end: usize,
}

impl<const ROOM: usize> Model for Text<ROOM> {
    ghost Value = { List ℕ };

    ghost view = { λ t. take t.end t.bytes };

    ghost invariant = { λ t. t.end ≤ ROOM };
}

impl<const ROOM: usize> Text<ROOM> {
    // A text without a byte.
    pub(crate) fn new() -> Text<ROOM>
        ensures { result ≡ [] }
    {
        Text {
            bytes: [0; ROOM],
            end: 0,
        }
    }

    // Copies the text to the front of a buffer, and gives its length. Refuses 6.
    pub(crate) fn copy_to(&self, buffer: &mut [u8]) -> Result<u64, Refused>
        ensures value { count_told result ≡ count_answer (refused_if (ltb (length buffer.old) (length self.now)) 6 0) (length self.now) }
        ensures buffer_after { buffer.new ≡ buffer_left (refused_if (ltb (length buffer.old) (length self.now)) 6 0) self.now buffer.old }
    {
        let bytes = &self.bytes[..];
        let all = &bytes[..self.end];
        if buffer.len() < all.len() {
            return Err(Ground::NoRoom.at(0));
        }
        buffer[..all.len()].copy_from_slice(all);
        Ok(all.len() as u64)
    }

    // Writes bytes.
    pub(crate) fn put(&mut self, bytes: &[u8])
        requires { length self.old + length bytes.now ≤ ROOM }
        ensures { self.new ≡ self.old ++ bytes.now }
    {
        let from = self.end;
        let end = from + bytes.len();
        let all = &mut self.bytes[..];
        all[from..end].copy_from_slice(bytes);
        self.end = end;
    }

    // Writes a number of one word and the byte after it.
    pub(crate) fn number(&mut self, n: u64, after: u8)
        requires { length self.old + 40 ≤ ROOM }
        ensures text_after { self.new ≡ self.old ++ (decimal n ++ (after ∷ [])) }
        ensures room { length self.new ≤ length self.old + 40 }
    {
        self.wide(Wide::from(n), after);
    }

    // Writes a signed number and the byte after it.
    #[tactic(auto, unfolding(crate::specs::Columns::signed_decimal))]
    pub(crate) fn signed(&mut self, n: i64, after: u8)
        requires { length self.old + 41 ≤ ROOM }
        ensures text_after { self.new ≡ self.old ++ (signed_decimal n ++ (after ∷ [])) }
        ensures room { length self.new ≤ length self.old + 41 }
    {
        if n < 0 {
            self.put(b"-");
        }
        self.number(n.unsigned_abs(), after);
    }

    // Writes a number of two halves and the byte after it.
    pub(crate) fn wide(&mut self, n: Wide, after: u8)
        requires { length self.old + 40 ≤ ROOM }
        ensures text_after { self.new ≡ self.old ++ (decimal (value n) ++ (after ∷ [])) }
        ensures room { length self.new ≤ length self.old + 40 }
    {
        let mut digits = [0u8; 39];
        let first = decimal::spelled(n, &mut digits);
        self.put(&digits[first..]);
        self.put(&[after]);
    }
}
