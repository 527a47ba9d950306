// Phase from frequency and back, and drift.
ghost use Rattle.std.specs.Prelude.{◌≡◌, ◌+◌, ◌-◌, length};
ghost use Rattle.record.specs.Answers.{count_answer, buffer_left};
ghost use Rattle.frequency.specs.Frequency.{phases_from, phases, phase_refusal, phase_refusal_from, differences, frequency_refusal};
ghost use Rattle.drift.specs.Drift.{drift_answer, without_drift, removal_refusal};

use drift::DriftAnswer;
use record::CountAnswer;

// Phases from readings.
#[unsafe(no_mangle)]
pub extern "C" fn plg_phase_from_frequency(readings: &[i64], buffer: &mut [i64]) -> CountAnswer
    ensures value { result ≡ count_answer (phase_refusal readings.now (length buffer.old)) (length readings.now + 1) }
    ensures buffer_after { buffer.new ≡ buffer_left (phase_refusal readings.now (length buffer.old)) (phases readings.now) buffer.old }
{
    ploegelster::phases::plg_phase_from_frequency(readings, buffer)
}

// Phases from readings, from a start on.
#[unsafe(no_mangle)]
pub extern "C" fn plg_phase_from_start(
    start: i64,
    readings: &[i64],
    buffer: &mut [i64],
) -> CountAnswer
    ensures value { result ≡ count_answer (phase_refusal_from start readings.now (length buffer.old)) (length readings.now + 1) }
    ensures buffer_after { buffer.new ≡ buffer_left (phase_refusal_from start readings.now (length buffer.old)) (phases_from start readings.now) buffer.old }
{
    ploegelster::phases::plg_phase_from_start(start, readings, buffer)
}

// Readings from phases.
#[unsafe(no_mangle)]
pub extern "C" fn plg_frequency_from_phase(samples: &[i64], buffer: &mut [i64]) -> CountAnswer
    ensures value { result ≡ count_answer (frequency_refusal samples.now (length buffer.old)) (length samples.now - 1) }
    ensures buffer_after { buffer.new ≡ buffer_left (frequency_refusal samples.now (length buffer.old)) (differences samples.now) buffer.old }
{
    ploegelster::phases::plg_frequency_from_phase(samples, buffer)
}

// The drift figure.
#[unsafe(no_mangle)]
pub extern "C" fn plg_drift_figure(samples: &[i64]) -> DriftAnswer
    ensures { result ≡ drift_answer samples.now }
{
    ploegelster::phases::plg_drift_figure(samples)
}

// A record without its drift.
#[unsafe(no_mangle)]
pub extern "C" fn plg_remove_drift(samples: &[i64], buffer: &mut [i64]) -> CountAnswer
    ensures value { result ≡ count_answer (removal_refusal samples.now (length buffer.old)) (length samples.now) }
    ensures buffer_after { buffer.new ≡ buffer_left (removal_refusal samples.now (length buffer.old)) (without_drift samples.now) buffer.old }
{
    ploegelster::phases::plg_remove_drift(samples, buffer)
}
