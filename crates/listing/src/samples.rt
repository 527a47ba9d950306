// The samples of a record file that a sheet takes: read, turned into phase where they are frequency, and looked at as the Allan sum does at factor 1.
ghost use Rattle.std.specs.Prelude.{◌≡◌, ◌≤◌, length, take, IfOk};
ghost use Rattle.record.specs.Refusals.{◌then◌};
ghost use Rattle.record.specs.Answers.{count_answer};
ghost use Rattle.record.specs.Told.{count_told};
ghost use Rattle.frequency.specs.Frequency.{phases_from, phase_refusal_from};
ghost use Rattle.phr.specs.Kinds.{number_of_kind};
ghost use Rattle.phr.specs.Reading.{start_of, record_values, read_record_refusal};
ghost use Rattle.listing.specs.Sheet.{sheet_most, samples_of, reader_refusal, phases_refusal, sheet_refusal};

use phr::Kind;
use record::{Ground, Refused};

// A sheet takes at most so many samples, or readings.
pub(crate) const MOST: usize = 4096;

const MOST_READINGS: u64 = 4095;

// The samples at the front of the buffer, and how many there are; or what the record is refused for as a whole.
pub(crate) fn samples_of(bytes: &[u8], samples: &mut [i64]) -> Result<u64, Refused>
    requires { length samples.old ≡ 4096 }
    ensures value { count_told result ≡ count_answer (sheet_refusal bytes.now) (length (samples_of bytes.now)) }
    ensures in_front { IfOk result (λ count. (count ≤ 4096) × (take count samples.new ≡ samples_of bytes.now)) }
{
    let count = read(bytes, samples)?;
    record::check_record(sums::ALLAN, 1, &samples[..count as usize])?;
    Ok(count)
}

// The same, refused by the reader and the phases alone.
fn read(bytes: &[u8], samples: &mut [i64]) -> Result<u64, Refused>
    requires { length samples.old ≡ 4096 }
    ensures value { count_told result ≡ count_answer (reader_refusal bytes.now then phases_refusal bytes.now) (length (samples_of bytes.now)) }
    ensures in_front { IfOk result (λ count. (count ≤ 4096) × (take count samples.new ≡ samples_of bytes.now)) }
{
    let header = phr::read_contents(bytes)?;
    if most(header.kind) < header.count {
        return Err(Ground::TooMany.at(0));
    }
    match header.kind {
        Kind::Phase => phase(bytes, samples),
        Kind::Frequency => frequency(bytes, samples),
    }
}

// The most values of a kind on a sheet.
#[tactic(auto, unfolding(crate::specs::Sheet::sheet_most))]
fn most(kind: Kind) -> u64
    ensures { result ≡ sheet_most (number_of_kind kind) }
{
    match kind {
        Kind::Phase => MOST as u64,
        Kind::Frequency => MOST_READINGS,
    }
}

// The values of a phase record.
fn phase(bytes: &[u8], samples: &mut [i64]) -> Result<u64, Refused>
    requires { length samples.old ≡ 4096 }
    ensures value { count_told result ≡ count_answer (read_record_refusal bytes.now 4096) (length (record_values bytes.now)) }
    ensures in_front { IfOk result (λ count. (count ≤ 4096) × (take count samples.new ≡ record_values bytes.now)) }
{
    let contents = phr::read_either(bytes, samples)?;
    Ok(contents.count)
}

// The phases of a frequency record.
fn frequency(bytes: &[u8], samples: &mut [i64]) -> Result<u64, Refused>
    requires { length samples.old ≡ 4096 }
    ensures value { count_told result ≡ count_answer (read_record_refusal bytes.now 4096 then phase_refusal_from (start_of bytes.now) (record_values bytes.now) 4096) (length (phases_from (start_of bytes.now) (record_values bytes.now))) }
    ensures in_front { IfOk result (λ count. (count ≤ 4096) × (take count samples.new ≡ phases_from (start_of bytes.now) (record_values bytes.now))) }
{
    let mut readings = [0i64; MOST];
    let contents = phr::read_either(bytes, &mut readings)?;
    frequency::phases(
        contents.start,
        &readings[..contents.count as usize],
        samples,
    )
}
