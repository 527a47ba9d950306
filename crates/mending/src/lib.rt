// Salvage of a damaged record file: the proper file that can still be had of it. What a file is, and how its bytes are read, is left to phr.

#![tactic(auto)]

ghost use Rattle.std.specs.Prelude.{◌≡◌, cond, not, ◌++◌, ◌+◌, ◌-◌, ◌*◌, ◌/◌, ◌%◌, ◌≤◌, min, ltb, eqb, length, take, drop, set, Ok};
ghost use Rattle.record.specs.Answers.{buffer_left};
ghost use Rattle.record.specs.Refusals.{none, refused_if, ◌then◌, in_range};
ghost use Rattle.record.specs.Told.{told};
ghost use Rattle.phr.specs.Reading.{count_of, head_length, record_answer};
ghost use Rattle.phr.specs.Told.{record_told};
ghost use Rattle.mending.specs.Salvage.{present_values, first_bad, kept_values, salvaged_file, salvage_refusal, salvage_answer};
ghost use Rattle.mending.specs.Told.{salvage_told};

use phr::Contents;
use record::{Ground, Refused};

// How many values the header of the damaged file says, how many were kept, its length in bytes less the new one's, and whether a value outside its
// range was met.
#[derive(Clone, Copy)]
pub struct Kept {
    pub old_count: u64,
    pub new_count: u64,
    pub left_over: u64,
    pub met: bool,
}

// What was salvaged as C is told it, with 1 if a value outside its range was met, else 0; noughts beside a refusal.
#[repr(C)]
#[derive(Clone, Copy)]
pub struct SalvageAnswer {
    pub number: u64,
    pub place: u64,
    pub old_count: u64,
    pub new_count: u64,
    pub left_over: u64,
    pub met: u64,
}

// Writes the proper file that can still be had of a damaged one of either version to the front of the buffer. Refuses 9 at a header byte, at the length
// of a short header or at 8, 2 by the written count, 6 for the new file, then 3 at place 0 for a start outside the sample range.
pub fn mended(bytes: &[u8], buffer: &mut [u8]) -> Result<Kept, Refused>
    ensures value { salvage_told result ≡ salvage_answer bytes.now (length buffer.old) }
    ensures buffer_after { buffer.new ≡ buffer_left (salvage_refusal bytes.now (length buffer.old)) (salvaged_file bytes.now) buffer.old }
{
    let contents = phr::read_contents(bytes)?;
    let kept = keep(bytes, contents);
    let length = bytes.len() - kept.left_over as usize;
    check_new(length, contents.start, buffer.len())?;
    write(bytes, length, kept.new_count as usize, buffer);
    Ok(kept)
}

// Salvages as C is told it.
pub fn salvage(bytes: &[u8], buffer: &mut [u8]) -> SalvageAnswer
    ensures value { result ≡ salvage_answer bytes.now (length buffer.old) }
    ensures buffer_after { buffer.new ≡ buffer_left (salvage_refusal bytes.now (length buffer.old)) (salvaged_file bytes.now) buffer.old }
{
    SalvageAnswer::from(mended(bytes, buffer))
}

// What is kept of a damaged file, whose header says its contents.
fn keep(bytes: &[u8], contents: Contents) -> Kept
    requires { (record_told (Ok contents) ≡ record_answer none bytes.now) × (head_length bytes.now ≤ length bytes.now) }
    ensures old { result.old_count ≡ count_of bytes.now }
    ensures kept { result.new_count ≡ length (kept_values bytes.now) }
    ensures left { result.left_over ≡ length bytes.now - length (salvaged_file bytes.now) }
    ensures met { result.met ≡ ltb (first_bad bytes.now) (length (present_values bytes.now)) }
{
    let head = head_length(contents.version);
    let whole = whole_values(bytes.len(), head);
    let present = (contents.count as usize).min(whole);
    let kept = phr::good(&bytes[head..head + 8 * present], contents.kind);
    let length = head + 8 * kept;
    Kept {
        old_count: contents.count,
        new_count: kept as u64,
        left_over: (bytes.len() - length) as u64,
        met: kept < present,
    }
}

// A new file of so many bytes and its start, with room for so many bytes.
fn check_new(length: usize, start: i64, room: usize) -> Result<(), Refused>
    ensures { told result ≡ (refused_if (ltb room length) 6 0 then refused_if (not (in_range start)) 3 0) }
{
    if room < length {
        return Err(Ground::NoRoom.at(0));
    }
    if !record::in_range(start) {
        return Err(Ground::OutOfRange.at(0));
    }
    Ok(())
}

// The header's length in bytes.
fn head_length(version: u64) -> usize
    ensures { result ≡ cond (eqb version 2) 16 8 }
{
    if version == 2 { 16 } else { 8 }
}

// How many whole values follow the header in so many bytes.
fn whole_values(length: usize, head: usize) -> usize
    requires { head ≤ length }
    ensures { result ≡ (length - head) / 8 }
{
    (length - head) / 8
}

// The bytes up to an end, with another count, at the front of the buffer.
fn write(bytes: &[u8], end: usize, count: usize, buffer: &mut [u8])
    requires { (8 ≤ end) × (end ≤ length bytes.now) × (end ≤ length buffer.old) }
    ensures { buffer.new ≡ set (set (take end bytes.now ++ drop end buffer.old) 6 (count % 256)) 7 (count / 256 % 256) }
{
    buffer[..end].copy_from_slice(&bytes[..end]);
    buffer[6] = (count % 256) as u8;
    buffer[7] = (count / 256 % 256) as u8;
}

impl From<Result<Kept, Refused>> for SalvageAnswer {
    ghost from_gives = { λ file answer. answer ≡ salvage_told file };

    fn from(file: Result<Kept, Refused>) -> SalvageAnswer {
        match file {
            Ok(kept) => SalvageAnswer {
                number: 0,
                place: 0,
                old_count: kept.old_count,
                new_count: kept.new_count,
                left_over: kept.left_over,
                met: u64::from(kept.met),
            },
            Err(refused) => SalvageAnswer {
                number: refused.why.into(),
                place: refused.place,
                old_count: 0,
                new_count: 0,
                left_over: 0,
                met: 0,
            },
        }
    }
}
