// The checks of reading and of writing, each in the order of the rules.
ghost use Rattle.std.specs.Prelude.{◌≡◌, ◌+◌, ◌*◌, ◌≤◌, length};
ghost use Rattle.record.specs.Told.{told};
ghost use Rattle.phr.specs.Bytes.{values_from};
ghost use Rattle.phr.specs.File.{values_refusal};
ghost use Rattle.phr.specs.Kinds.{number_of_kind};
ghost use Rattle.phr.specs.Reading.{kind_of, count_of, count_refusal, read_refusal, header_refusal, counted_header_refusal, read_record_refusal};
ghost use Rattle.phr.specs.Writing.{room_refusal, write_refusal, write_record_refusal};

use crate::kinds::Kind;
use crate::{header, values};
use record::{Ground, Refused};

// A file of version 1, with room for so many values.
pub(crate) fn check_read(bytes: &[u8], room: usize) -> Result<(), Refused>
    ensures { told result ≡ read_refusal bytes.now room }
{
    let sound = header::sound_up_to(bytes, 1);
    if sound < 8 {
        return Err(Ground::BadFile.at(sound as u64));
    }
    check_count(bytes, 8, room)?;
    check_outside(bytes, 8)
}

// A file of either version, with room for so many values.
pub(crate) fn check_read_record(bytes: &[u8], room: usize) -> Result<(), Refused>
    ensures { told result ≡ read_record_refusal bytes.now room }
{
    check_header(bytes)?;
    let head = header::head_length(bytes);
    check_count(bytes, head, room)?;
    if !record::in_range(header::start_of(bytes)) {
        return Err(Ground::OutOfRange.at(0));
    }
    check_outside(bytes, head)
}

// The header of a file of either version, its count too.
pub(crate) fn check_counted_header(bytes: &[u8]) -> Result<(), Refused>
    ensures { told result ≡ counted_header_refusal bytes.now }
{
    check_header(bytes)?;
    if header::kind_of(bytes).most_values() < header::count_of(bytes) {
        return Err(Ground::TooMany.at(0));
    }
    Ok(())
}

// The header of a file of either version.
fn check_header(bytes: &[u8]) -> Result<(), Refused>
    ensures { told result ≡ header_refusal bytes.now }
{
    let sound = header::sound_up_to(bytes, 2);
    if sound < 8 {
        return Err(Ground::BadFile.at(sound as u64));
    }
    if bytes.len() < header::head_length(bytes) {
        return Err(Ground::BadFile.at(bytes.len() as u64));
    }
    if header::kind_of(bytes).can_start(header::start_of(bytes)) {
        return Ok(());
    }
    Err(Ground::BadFile.at(8))
}

// A file's count, after a header of so many bytes, with room for so many values.
fn check_count(bytes: &[u8], head: usize, room: usize) -> Result<(), Refused>
    requires { (8 ≤ length bytes.now) × (kind_of bytes.now ≤ 1) × (head ≤ 16) }
    ensures { told result ≡ count_refusal head bytes.now room }
{
    let count = header::count_of(bytes);
    if header::kind_of(bytes).most_values() < count {
        return Err(Ground::TooMany.at(0));
    }
    let right = head + 8 * count;
    if bytes.len() < right {
        return Err(Ground::BadFile.at(bytes.len() as u64));
    }
    if right < bytes.len() {
        return Err(Ground::BadFile.at(right as u64));
    }
    if room < count {
        return Err(Ground::NoRoom.at(0));
    }
    Ok(())
}

// A file's values, after a header of so many bytes.
fn check_outside(bytes: &[u8], head: usize) -> Result<(), Refused>
    requires { (8 ≤ length bytes.now) × (kind_of bytes.now ≤ 1) × (head + 8 * count_of bytes.now ≤ length bytes.now) }
    ensures { told result ≡ values_refusal (kind_of bytes.now) (values_from head (count_of bytes.now) bytes.now) }
{
    let count = header::count_of(bytes);
    let outside = values::first_outside(bytes, head, header::kind_of(bytes), count);
    if outside < count {
        return Err(Ground::OutOfRange.at(outside as u64));
    }
    Ok(())
}

// The file of a kind and its values, version 1, with room for so many bytes.
pub(crate) fn check_write(kind: Kind, values: &[i64], room: usize) -> Result<(), Refused>
    ensures { told result ≡ write_refusal (number_of_kind kind) values.now room }
{
    check_room(8, kind, values.len(), room)?;
    check_unfit(kind, values)
}

// The file of a kind, a start and values, version 2, with room for so many bytes.
pub(crate) fn check_write_record(
    kind: Kind,
    start: i64,
    values: &[i64],
    room: usize,
) -> Result<(), Refused>
    ensures { told result ≡ write_record_refusal (number_of_kind kind) start values.now room }
{
    if !kind.can_start(start) {
        return Err(Ground::BadFile.at(8));
    }
    check_room(16, kind, values.len(), room)?;
    if !record::in_range(start) {
        return Err(Ground::OutOfRange.at(0));
    }
    check_unfit(kind, values)
}

// So many values, after a header of so many bytes, with room for so many bytes.
fn check_room(head: usize, kind: Kind, count: usize, room: usize) -> Result<(), Refused>
    requires { head ≤ 16 }
    ensures { told result ≡ room_refusal head (number_of_kind kind) count room }
{
    if kind.most_values() < count {
        return Err(Ground::TooMany.at(0));
    }
    if room < head + 8 * count {
        return Err(Ground::NoRoom.at(0));
    }
    Ok(())
}

// Values to be written.
fn check_unfit(kind: Kind, values: &[i64]) -> Result<(), Refused>
    ensures { told result ≡ values_refusal (number_of_kind kind) values.now }
{
    let unfit = values::first_unfit(kind, values);
    if unfit < values.len() {
        return Err(Ground::OutOfRange.at(unfit as u64));
    }
    Ok(())
}
