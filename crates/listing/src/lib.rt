// The sheet of all factors: the lines of a record file and the closing line, as text in lent buffers. Figures are those of the crates below; files are
// opened and read by others.

#![tactic(auto)]

mod columns;
mod lines;
mod samples;
mod text;

ghost use Rattle.std.specs.Prelude.{◌≡◌, ◌^◌, ◌||◌, ltb, length};
ghost use Rattle.record.specs.Refusals.{refused_if};
ghost use Rattle.record.specs.Answers.{count_answer, buffer_left};
ghost use Rattle.record.specs.Told.{told, count_told};
ghost use Rattle.listing.specs.Sheet.{record_text, total_line, text_refusal, text_answer, total_refusal};
ghost use Rattle.listing.specs.Told.{text_told};

use crate::text::{CLOSING, LINES, Text};
use record::{CountAnswer, Ground, Refused};

// K and C added up over the lines of a sheet. All noughts at first.
#[repr(C)]
#[derive(Clone, Copy)]
pub struct Totals {
    pub k: u64,
    pub c: u64,
}

// How many bytes of text were written, and the totals with the record's.
#[derive(Clone, Copy)]
pub struct Written {
    pub length: u64,
    pub totals: Totals,
}

// The same as C is told it; beside a refusal the totals are as they came.
#[repr(C)]
#[derive(Clone, Copy)]
pub struct SheetAnswer {
    pub number: u64,
    pub place: u64,
    pub length: u64,
    pub totals: Totals,
}

// A total that is handed in is at most 2^63, so that a record's counts can be added.
const LARGEST_TOTAL: u64 = 9223372036854775808;

// Writes the lines of a record file of either version to the front of the buffer, and adds its counts to the totals. Refuses 2 for a total above 2^63, then
// 6 for the text. What a record is refused for is its text.
pub fn record(bytes: &[u8], totals: Totals, text: &mut [u8]) -> Result<Written, Refused>
    ensures value { text_told totals result ≡ text_answer bytes.now totals (length text.old) }
    ensures text_after { text.new ≡ buffer_left (text_refusal bytes.now totals (length text.old)) (record_text bytes.now) text.old }
{
    check_totals(totals)?;
    let mut lines = Text::<LINES>::new();
    let after = lines::record_lines(bytes, totals, &mut lines);
    let length = lines.copy_to(text)?;
    Ok(Written {
        length,
        totals: after,
    })
}

// Writes the closing line to the front of the buffer, and gives its length. Refuses 6.
#[tactic(auto, unfolding(crate::specs::Sheet::total_refusal))]
pub fn total(totals: Totals, text: &mut [u8]) -> Result<u64, Refused>
    ensures value { count_told result ≡ count_answer (total_refusal totals (length text.old)) (length (total_line totals)) }
    ensures text_after { text.new ≡ buffer_left (total_refusal totals (length text.old)) (total_line totals) text.old }
{
    let mut line = Text::<CLOSING>::new();
    lines::total_line(totals, &mut line);
    line.copy_to(text)
}

// The lines of a record file as C is told them.
pub fn sheet_record(bytes: &[u8], totals: Totals, text: &mut [u8]) -> SheetAnswer
    ensures value { result ≡ text_answer bytes.now totals (length text.old) }
    ensures text_after { text.new ≡ buffer_left (text_refusal bytes.now totals (length text.old)) (record_text bytes.now) text.old }
{
    SheetAnswer::from((record(bytes, totals, text), totals))
}

// The closing line as C is told it.
pub fn sheet_total(totals: Totals, text: &mut [u8]) -> CountAnswer
    ensures value { result ≡ count_answer (total_refusal totals (length text.old)) (length (total_line totals)) }
    ensures text_after { text.new ≡ buffer_left (total_refusal totals (length text.old)) (total_line totals) text.old }
{
    CountAnswer::from(total(totals, text))
}

// What was written, or the refusal and the totals as they came.
impl From<(Result<Written, Refused>, Totals)> for SheetAnswer {
    ghost from_gives = { λ call answer. answer ≡ text_told call.1 call.0 };

    fn from(call: (Result<Written, Refused>, Totals)) -> SheetAnswer {
        let (written, totals) = call;
        match written {
            Ok(written) => SheetAnswer {
                number: 0,
                place: 0,
                length: written.length,
                totals: written.totals,
            },
            Err(refused) => SheetAnswer {
                number: refused.why.into(),
                place: refused.place,
                length: 0,
                totals,
            },
        }
    }
}

// 2 for a total above 2^63, to which a record's counts may be too much.
fn check_totals(totals: Totals) -> Result<(), Refused>
    ensures { told result ≡ refused_if (ltb (2 ^ 63) totals.k || ltb (2 ^ 63) totals.c) 2 0 }
{
    if LARGEST_TOTAL < totals.k || LARGEST_TOTAL < totals.c {
        return Err(Ground::TooMany.at(0));
    }
    Ok(())
}
