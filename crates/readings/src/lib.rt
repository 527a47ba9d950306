// Float readings, lent whole: turned into samples in a lent buffer, and their sums. Sums of samples are those of crate sums.

#![tactic(auto)]

mod reading;

ghost use Rattle.std.specs.Prelude.{◌≡◌, map, ◌≤◌, length};
ghost use Rattle.laws.specs.Lists.{how_many, written};
ghost use Rattle.record.specs.Refusals.{none};
ghost use Rattle.record.specs.Answers.{buffer_left};
ghost use Rattle.record.specs.Told.{told};
ghost use Rattle.readings.specs.Readings.{sample_of, has_fraction, reading_refusal};
ghost use Rattle.readings.specs.Answers.{float_refusal, float_answer};
ghost use Rattle.readings.specs.Told.{sums_told};

use record::{Ground, Refused};
use sums::{Part, Sum};

// The Allan sum, the modified sum where it is due, and how many readings were changed.
#[derive(Clone, Copy)]
pub struct Sums {
    pub allan: Sum,
    pub modified: Option<Sum>,
    pub changed: u64,
}

// The same as C is told it: the modified sum has its own number where it is not due, and noughts stand beside a refusal.
#[repr(C)]
#[derive(Clone, Copy)]
pub struct FloatSums {
    pub number: u64,
    pub place: u64,
    pub allan: Part,
    pub modified: Part,
    pub changed: u64,
}

// Writes the samples of the readings to the front of the buffer, and gives their sums at factor m and how many readings had a fraction. Refuses 5, 2,
// 1, 6, then 3 or 4 at the lowest index.
pub fn sums_of(readings: &[f64], m: u64, buffer: &mut [i64]) -> Result<Sums, Refused>
    ensures value { sums_told result ≡ float_answer m readings.now (length buffer.old) }
    ensures buffer_after { buffer.new ≡ buffer_left (float_refusal m readings.now (length buffer.old)) (map sample_of readings.now) buffer.old }
{
    check(readings, m, buffer.len())?;
    let changed = write_samples(readings, buffer);
    let samples = &buffer[..readings.len()];
    Ok(Sums {
        allan: sums::allan(samples, m).unwrap(),
        modified: sums::modified(samples, m).ok(),
        changed,
    })
}

// The sums of the readings as C is told them.
pub fn float_sums(readings: &[f64], m: u64, buffer: &mut [i64]) -> FloatSums
    ensures value { result ≡ float_answer m readings.now (length buffer.old) }
    ensures buffer_after { buffer.new ≡ buffer_left (float_refusal m readings.now (length buffer.old)) (map sample_of readings.now) buffer.old }
{
    FloatSums::from(sums_of(readings, m, buffer))
}

impl From<Result<Sums, Refused>> for FloatSums {
    ghost from_gives = { λ sums answer. answer ≡ sums_told sums };

    fn from(sums: Result<Sums, Refused>) -> FloatSums {
        match sums {
            Ok(sums) => FloatSums {
                number: 0,
                place: 0,
                allan: Some(sums.allan).into(),
                modified: sums.modified.into(),
                changed: sums.changed,
            },
            Err(refused) => FloatSums {
                number: refused.why.into(),
                place: refused.place,
                allan: sums::NO_PART,
                modified: sums::NO_PART,
                changed: 0,
            },
        }
    }
}

// 5, 2, 1, 6, then 3 or 4 at the lowest index.
fn check(readings: &[f64], m: u64, room: usize) -> Result<(), Refused>
    ensures { told result ≡ float_refusal m readings.now room }
{
    let count = readings.len();
    record::check_size(sums::ALLAN, m, count as u64)?;
    if room < count {
        return Err(Ground::NoRoom.at(0));
    }
    check_readings(readings)
}

// 3 or 4 at the first reading that becomes no sample.
fn check_readings(readings: &[f64]) -> Result<(), Refused>
    ensures { told result ≡ reading_refusal readings.now }
{
    for (i, &reading) in readings.iter().enumerate() {
        if let Err(why) = reading::check(reading) {
            return Err(why.at(i as u64));
        }
    }
    Ok(())
}

// The samples at the front of the buffer; how many readings had a fraction.
fn write_samples(readings: &[f64], buffer: &mut [i64]) -> u64
    requires { (reading_refusal readings.now ≡ none) × (length readings.now ≤ length buffer.old) }
    ensures value { result ≡ how_many has_fraction readings.now }
    ensures buffer_after { buffer.new ≡ written (map sample_of readings.now) buffer.old }
{
    let mut changed: u64 = 0;
    for (i, &reading) in readings.iter().enumerate() {
        buffer[i] = reading::sample_of(reading);
        changed += reading::counted(reading);
    }
    changed
}
