// The record file, read and written as bytes: version 1, and version 2 with a starting phase. What is in a record, and what is worked from it, is left
// to others.

#![tactic(auto)]

mod header;
pub mod kinds;
mod refusals;
mod values;

ghost use Rattle.std.specs.Prelude.{◌≡◌, ◌+◌, ◌*◌, ◌/◌, ◌≤◌, length};
ghost use Rattle.laws.specs.Lists.{first_failing};
ghost use Rattle.record.specs.Answers.{count_answer, buffer_left};
ghost use Rattle.record.specs.Told.{count_told};
ghost use Rattle.phr.specs.Bytes.{values_from};
ghost use Rattle.phr.specs.File.{file_of, file_from, value_in_range};
ghost use Rattle.phr.specs.Kinds.{number_of_kind};
ghost use Rattle.phr.specs.Reading.{values_of, read_refusal, read_answer, record_values, header_answer, read_record_refusal, read_record_answer};
ghost use Rattle.phr.specs.Told.{read_told, record_told};
ghost use Rattle.phr.specs.Writing.{write_refusal, write_record_refusal};

pub use kinds::Kind;
use record::{CountAnswer, Refused};

// The kind of a file of version 1 and how many values it holds.
#[derive(Clone, Copy)]
pub struct Held {
    pub kind: Kind,
    pub count: u64,
}

// The version, kind and starting phase of a file of either version and how many values its header says. The start is 0 in version 1.
#[derive(Clone, Copy)]
pub struct Contents {
    pub version: u64,
    pub kind: Kind,
    pub start: i64,
    pub count: u64,
}

// What a file of version 1 holds as C is told it; noughts beside a refusal.
#[repr(C)]
#[derive(Clone, Copy)]
pub struct ReadAnswer {
    pub number: u64,
    pub place: u64,
    pub kind: u64,
    pub count: u64,
}

// What a file of either version holds as C is told it; noughts beside a refusal.
#[repr(C)]
#[derive(Clone, Copy)]
pub struct RecordAnswer {
    pub number: u64,
    pub place: u64,
    pub version: u64,
    pub kind: u64,
    pub start: i64,
    pub count: u64,
}

// Reads the values of a file of version 1 into the buffer. Refuses 9 at a header byte, 2, 9 at the length, 6, then 3 at the first value outside its
// range.
pub fn read(bytes: &[u8], buffer: &mut [i64]) -> Result<Held, Refused>
    ensures value { read_told result ≡ read_answer bytes.now (length buffer.old) }
    ensures buffer_after { buffer.new ≡ buffer_left (read_refusal bytes.now (length buffer.old)) (values_of bytes.now) buffer.old }
{
    refusals::check_read(bytes, buffer.len())?;
    let count = header::count_of(bytes);
    values::read_values(bytes, 8, count, buffer);
    Ok(Held {
        kind: header::kind_of(bytes),
        count: count as u64,
    })
}

// Writes the file, version 1, of a kind and its values to the front of the buffer. Refuses 2, 6, then 3 at the first value outside its range.
pub fn write(kind: Kind, values: &[i64], buffer: &mut [u8]) -> Result<u64, Refused>
    ensures value { count_told result ≡ count_answer (write_refusal (number_of_kind kind) values.now (length buffer.old)) (8 + 8 * length values.now) }
    ensures buffer_after { buffer.new ≡ buffer_left (write_refusal (number_of_kind kind) values.now (length buffer.old)) (file_of (number_of_kind kind) values.now) buffer.old }
{
    refusals::check_write(kind, values, buffer.len())?;
    header::write_first_eight(1, kind, values.len(), buffer);
    values::write_values(values, 8, buffer);
    Ok(8 + 8 * values.len() as u64)
}

// Reads the values of a file of either version into the buffer. Refuses 9 at a header byte, at the length of a short header or at 8, 2, 9 at the
// length, 6, 3 at place 0 for a start outside the sample range, then 3 at the first value outside its range.
pub fn read_either(bytes: &[u8], buffer: &mut [i64]) -> Result<Contents, Refused>
    ensures value { record_told result ≡ read_record_answer bytes.now (length buffer.old) }
    ensures buffer_after { buffer.new ≡ buffer_left (read_record_refusal bytes.now (length buffer.old)) (record_values bytes.now) buffer.old }
{
    refusals::check_read_record(bytes, buffer.len())?;
    values::read_values(
        bytes,
        header::head_length(bytes),
        header::count_of(bytes),
        buffer,
    );
    Ok(header::said(bytes))
}

// Writes the file, version 2, of a kind, a starting phase and values to the front of the buffer. Refuses 9 at place 8, 2, 6, 3 at place 0 for a start
// outside the sample range, then 3 at the first value outside its range.
pub fn write_from(kind: Kind, start: i64, values: &[i64], buffer: &mut [u8]) -> Result<u64, Refused>
    ensures value { count_told result ≡ count_answer (write_record_refusal (number_of_kind kind) start values.now (length buffer.old)) (16 + 8 * length values.now) }
    ensures buffer_after { buffer.new ≡ buffer_left (write_record_refusal (number_of_kind kind) start values.now (length buffer.old)) (file_from (number_of_kind kind) start values.now) buffer.old }
{
    refusals::check_write_record(kind, start, values, buffer.len())?;
    header::write_first_eight(2, kind, values.len(), buffer);
    values::write_value(buffer, 8, start);
    values::write_values(values, 16, buffer);
    Ok(16 + 8 * values.len() as u64)
}

// What the header of a file of either version says, whatever follows it. Refuses 9 at a header byte, at the length of a short header or at 8, then 2.
pub fn read_contents(bytes: &[u8]) -> Result<Contents, Refused>
    ensures { record_told result ≡ header_answer bytes.now }
{
    refusals::check_counted_header(bytes)?;
    Ok(header::said(bytes))
}

// How many values, of those that the bytes hold one after the other, come before the first outside the range of their kind: all where none is.
pub fn good(bytes: &[u8], kind: Kind) -> usize
    ensures { result ≡ first_failing (value_in_range (number_of_kind kind)) (values_from 0 (length bytes.now / 8) bytes.now) }
{
    values::first_outside(bytes, 0, kind, bytes.len() / 8)
}

// Reads a file of version 1 as C is told it.
pub fn read_file(bytes: &[u8], buffer: &mut [i64]) -> ReadAnswer
    ensures value { result ≡ read_answer bytes.now (length buffer.old) }
    ensures buffer_after { buffer.new ≡ buffer_left (read_refusal bytes.now (length buffer.old)) (values_of bytes.now) buffer.old }
{
    ReadAnswer::from(read(bytes, buffer))
}

// Writes the file, version 1, of a kind's number as C is told it. Refuses 9 at place 5 for the number of no kind, first of all.
pub fn write_file(kind: u64, values: &[i64], buffer: &mut [u8]) -> CountAnswer
    ensures value { result ≡ count_answer (write_refusal kind values.now (length buffer.old)) (8 + 8 * length values.now) }
    ensures buffer_after { buffer.new ≡ buffer_left (write_refusal kind values.now (length buffer.old)) (file_of kind values.now) buffer.old }
{
    match Kind::try_from(kind) {
        Ok(kind) => CountAnswer::from(write(kind, values, buffer)),
        Err(refused) => CountAnswer::from(Err(refused)),
    }
}

// Reads a file of either version as C is told it.
pub fn read_record(bytes: &[u8], buffer: &mut [i64]) -> RecordAnswer
    ensures value { result ≡ read_record_answer bytes.now (length buffer.old) }
    ensures buffer_after { buffer.new ≡ buffer_left (read_record_refusal bytes.now (length buffer.old)) (record_values bytes.now) buffer.old }
{
    RecordAnswer::from(read_either(bytes, buffer))
}

// Writes the file, version 2, of a kind's number as C is told it. Refuses 9 at place 5 for the number of no kind, first of all.
pub fn write_record(kind: u64, start: i64, values: &[i64], buffer: &mut [u8]) -> CountAnswer
    ensures value { result ≡ count_answer (write_record_refusal kind start values.now (length buffer.old)) (16 + 8 * length values.now) }
    ensures buffer_after { buffer.new ≡ buffer_left (write_record_refusal kind start values.now (length buffer.old)) (file_from kind start values.now) buffer.old }
{
    match Kind::try_from(kind) {
        Ok(kind) => CountAnswer::from(write_from(kind, start, values, buffer)),
        Err(refused) => CountAnswer::from(Err(refused)),
    }
}

// What a header says, told as a whole record is.
pub fn read_header(bytes: &[u8]) -> RecordAnswer
    ensures { result ≡ header_answer bytes.now }
{
    RecordAnswer::from(read_contents(bytes))
}

// The good values of a kind's number: any but 0 has the range of frequency values.
pub fn good_values(bytes: &[u8], kind: u64) -> usize
    ensures { result ≡ first_failing (value_in_range kind) (values_from 0 (length bytes.now / 8) bytes.now) }
{
    if kind == 0 {
        return good(bytes, Kind::Phase);
    }
    good(bytes, Kind::Frequency)
}

impl From<Result<Held, Refused>> for ReadAnswer {
    ghost from_gives = { λ file answer. answer ≡ read_told file };

    fn from(file: Result<Held, Refused>) -> ReadAnswer {
        match file {
            Ok(held) => ReadAnswer {
                number: 0,
                place: 0,
                kind: held.kind.into(),
                count: held.count,
            },
            Err(refused) => ReadAnswer {
                number: refused.why.into(),
                place: refused.place,
                kind: 0,
                count: 0,
            },
        }
    }
}

impl From<Result<Contents, Refused>> for RecordAnswer {
    ghost from_gives = { λ file answer. answer ≡ record_told file };

    fn from(file: Result<Contents, Refused>) -> RecordAnswer {
        match file {
            Ok(contents) => RecordAnswer {
                number: 0,
                place: 0,
                version: contents.version,
                kind: contents.kind.into(),
                start: contents.start,
                count: contents.count,
            },
            Err(refused) => RecordAnswer {
                number: refused.why.into(),
                place: refused.place,
                version: 0,
                kind: 0,
                start: 0,
                count: 0,
            },
        }
    }
}
