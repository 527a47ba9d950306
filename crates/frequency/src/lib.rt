// Phase from frequency and back, into lent buffers. Nothing is written where a call is refused. The check of samples is that of crate record; files
// of either kind are left to crate phr.

#![tactic(auto)]

ghost use Rattle.std.specs.Prelude.{◌≡◌, ◌+◌, ◌-◌, ◌≤◌, ◌<◌, ◌^◌, nat_abs, ◌+ℤ◌, length};
ghost use Rattle.laws.specs.Lists.{written};
ghost use Rattle.record.specs.Refusals.{none, in_range, range_refusal};
ghost use Rattle.record.specs.Answers.{count_answer, buffer_left};
ghost use Rattle.record.specs.Told.{told, count_told};
ghost use Rattle.frequency.specs.Frequency.{phases_from, phases, first_leaving, phase_refusal, phase_refusal_from, differences, frequency_refusal};

use record::{CountAnswer, Ground, Refused};

// Phases from readings, from a start on: M readings give M + 1 phases, the first of them the start. Refuses 2, 6, 3 at place 0 for a start outside the
// sample range, then 3 at the first reading whose running phase leaves it.
pub fn phases(start: i64, readings: &[i64], buffer: &mut [i64]) -> Result<u64, Refused>
    ensures value { count_told result ≡ count_answer (phase_refusal_from start readings.now (length buffer.old)) (length readings.now + 1) }
    ensures buffer_after { buffer.new ≡ buffer_left (phase_refusal_from start readings.now (length buffer.old)) (phases_from start readings.now) buffer.old }
{
    check_phases(start, readings, buffer.len())?;
    write_phases(start, readings, buffer);
    Ok(readings.len() as u64 + 1)
}

// Readings from phases: N samples give N - 1 differences. Refuses 2, 1, 6, then 3 at the lowest index.
pub fn differences(samples: &[i64], buffer: &mut [i64]) -> Result<u64, Refused>
    ensures value { count_told result ≡ count_answer (frequency_refusal samples.now (length buffer.old)) (length samples.now - 1) }
    ensures buffer_after { buffer.new ≡ buffer_left (frequency_refusal samples.now (length buffer.old)) (differences samples.now) buffer.old }
{
    check_differences(samples, buffer.len())?;
    write_differences(samples, buffer);
    Ok(samples.len() as u64 - 1)
}

// Phases from readings, the first of them 0, as C is told it. Refuses 2, 6, then 3 at the first reading whose running phase leaves the sample range.
pub fn phase_from_frequency(readings: &[i64], buffer: &mut [i64]) -> CountAnswer
    ensures value { result ≡ count_answer (phase_refusal readings.now (length buffer.old)) (length readings.now + 1) }
    ensures buffer_after { buffer.new ≡ buffer_left (phase_refusal readings.now (length buffer.old)) (phases readings.now) buffer.old }
{
    phase_from_start(0, readings, buffer)
}

// Phases from readings, from a start on, as C is told it.
pub fn phase_from_start(start: i64, readings: &[i64], buffer: &mut [i64]) -> CountAnswer
    ensures value { result ≡ count_answer (phase_refusal_from start readings.now (length buffer.old)) (length readings.now + 1) }
    ensures buffer_after { buffer.new ≡ buffer_left (phase_refusal_from start readings.now (length buffer.old)) (phases_from start readings.now) buffer.old }
{
    CountAnswer::from(phases(start, readings, buffer))
}

// Readings from phases, as C is told it.
pub fn frequency_from_phase(samples: &[i64], buffer: &mut [i64]) -> CountAnswer
    ensures value { result ≡ count_answer (frequency_refusal samples.now (length buffer.old)) (length samples.now - 1) }
    ensures buffer_after { buffer.new ≡ buffer_left (frequency_refusal samples.now (length buffer.old)) (differences samples.now) buffer.old }
{
    CountAnswer::from(differences(samples, buffer))
}

// What phases are refused for, with room for so many.
fn check_phases(start: i64, readings: &[i64], room: usize) -> Result<(), Refused>
    ensures { told result ≡ phase_refusal_from start readings.now room }
{
    let count = readings.len();
    if record::MOST_READINGS < count as u64 {
        return Err(Ground::TooMany.at(0));
    }
    if room < count + 1 {
        return Err(Ground::NoRoom.at(0));
    }
    if !record::in_range(start) {
        return Err(Ground::OutOfRange.at(0));
    }
    let leaving = first_leaving(start, readings);
    if leaving < count {
        return Err(Ground::OutOfRange.at(leaving as u64));
    }
    Ok(())
}

// What differences are refused for, with room for so many.
fn check_differences(samples: &[i64], room: usize) -> Result<(), Refused>
    ensures { told result ≡ frequency_refusal samples.now room }
{
    let count = samples.len();
    if record::MOST_SAMPLES < count as u64 {
        return Err(Ground::TooMany.at(0));
    }
    if count == 0 {
        return Err(Ground::TooFew.at(0));
    }
    if room < count - 1 {
        return Err(Ground::NoRoom.at(0));
    }
    record::check_range(samples)
}

// The first reading whose running phase leaves the sample range, or the number of readings.
fn first_leaving(start: i64, readings: &[i64]) -> usize
    requires { nat_abs start ≤ 2 ^ 40 }
    ensures { result ≡ first_leaving start readings.now }
{
    let mut phase = start;
    for (i, &reading) in readings.iter().enumerate() {
        if !stays(phase, reading) {
            return i;
        }
        phase += reading;
    }
    readings.len()
}

// Whether a phase in range stays there with one reading more. A reading beyond 2^41 leaves it, and is not added.
fn stays(phase: i64, reading: i64) -> bool
    requires { nat_abs phase ≤ 2 ^ 40 }
    ensures { result ≡ in_range (phase +ℤ reading) }
{
    if reading < -record::LARGEST_FREQUENCY {
        return false;
    }
    if record::LARGEST_FREQUENCY < reading {
        return false;
    }
    record::in_range(phase + reading)
}

// The phases at the front of the buffer.
fn write_phases(start: i64, readings: &[i64], buffer: &mut [i64])
    requires { (nat_abs start ≤ 2 ^ 40) × (first_leaving start readings.now ≡ length readings.now) × (length readings.now < length buffer.old) }
    ensures { buffer.new ≡ written (phases_from start readings.now) buffer.old }
{
    let mut phase = start;
    for (i, &reading) in readings.iter().enumerate() {
        buffer[i] = phase;
        phase += reading;
    }
    buffer[readings.len()] = phase;
}

// The differences at the front of the buffer.
fn write_differences(samples: &[i64], buffer: &mut [i64])
    requires { (range_refusal samples.now ≡ none) × (length samples.now ≤ length buffer.old + 1) }
    ensures { buffer.new ≡ written (differences samples.now) buffer.old }
{
    for (i, pair) in samples.windows(2).enumerate() {
        buffer[i] = pair[1] - pair[0];
    }
}
