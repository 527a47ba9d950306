// The record file, version 1, and either version; what can still be had of a damaged one.
ghost use Rattle.std.specs.Prelude.{◌≡◌, ◌+◌, ◌*◌, length};
ghost use Rattle.record.specs.Answers.{count_answer, buffer_left};
ghost use Rattle.phr.specs.File.{file_of, file_from};
ghost use Rattle.phr.specs.Reading.{values_of, read_refusal, read_answer, record_values, read_record_refusal, read_record_answer};
ghost use Rattle.phr.specs.Writing.{write_refusal, write_record_refusal};
ghost use Rattle.mending.specs.Salvage.{salvaged_file, salvage_refusal, salvage_answer};

use mending::SalvageAnswer;
use phr::{ReadAnswer, RecordAnswer};
use record::CountAnswer;

// Reads the values of a file of version 1 into the buffer.
#[unsafe(no_mangle)]
pub extern "C" fn plg_read_file(bytes: &[u8], buffer: &mut [i64]) -> ReadAnswer
    ensures value { result ≡ read_answer bytes.now (length buffer.old) }
    ensures buffer_after { buffer.new ≡ buffer_left (read_refusal bytes.now (length buffer.old)) (values_of bytes.now) buffer.old }
{
    ploegelster::files::plg_read_file(bytes, buffer)
}

// Writes the file, version 1, of a kind and its values.
#[unsafe(no_mangle)]
pub extern "C" fn plg_write_file(kind: u64, values: &[i64], buffer: &mut [u8]) -> CountAnswer
    ensures value { result ≡ count_answer (write_refusal kind values.now (length buffer.old)) (8 + 8 * length values.now) }
    ensures buffer_after { buffer.new ≡ buffer_left (write_refusal kind values.now (length buffer.old)) (file_of kind values.now) buffer.old }
{
    ploegelster::files::plg_write_file(kind, values, buffer)
}

// Reads the values of a file of either version into the buffer.
#[unsafe(no_mangle)]
pub extern "C" fn plg_read_record(bytes: &[u8], buffer: &mut [i64]) -> RecordAnswer
    ensures value { result ≡ read_record_answer bytes.now (length buffer.old) }
    ensures buffer_after { buffer.new ≡ buffer_left (read_record_refusal bytes.now (length buffer.old)) (record_values bytes.now) buffer.old }
{
    ploegelster::files::plg_read_record(bytes, buffer)
}

// Writes the file, version 2, of a kind, a starting phase and values.
#[unsafe(no_mangle)]
pub extern "C" fn plg_write_record(
    kind: u64,
    start: i64,
    values: &[i64],
    buffer: &mut [u8],
) -> CountAnswer
    ensures value { result ≡ count_answer (write_record_refusal kind start values.now (length buffer.old)) (16 + 8 * length values.now) }
    ensures buffer_after { buffer.new ≡ buffer_left (write_record_refusal kind start values.now (length buffer.old)) (file_from kind start values.now) buffer.old }
{
    ploegelster::files::plg_write_record(kind, start, values, buffer)
}

// Writes the proper file that can still be had of a damaged one of either version.
#[unsafe(no_mangle)]
pub extern "C" fn plg_salvage(bytes: &[u8], buffer: &mut [u8]) -> SalvageAnswer
    ensures value { result ≡ salvage_answer bytes.now (length buffer.old) }
    ensures buffer_after { buffer.new ≡ buffer_left (salvage_refusal bytes.now (length buffer.old)) (salvaged_file bytes.now) buffer.old }
{
    ploegelster::files::plg_salvage(bytes, buffer)
}
