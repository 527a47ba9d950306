// Float readings.
ghost use Rattle.std.specs.Prelude.{◌≡◌, map, length};
ghost use Rattle.record.specs.Answers.{buffer_left};
ghost use Rattle.readings.specs.Readings.{sample_of};
ghost use Rattle.readings.specs.Answers.{float_refusal, float_answer};

use readings::FloatSums;

// Samples from doubles, and their sums.
#[unsafe(no_mangle)]
pub extern "C" fn plg_float_sums(readings: &[f64], m: u64, buffer: &mut [i64]) -> FloatSums
    ensures value { result ≡ float_answer m readings.now (length buffer.old) }
    ensures buffer_after { buffer.new ≡ buffer_left (float_refusal m readings.now (length buffer.old)) (map sample_of readings.now) buffer.old }
{
    ploegelster::floats::plg_float_sums(readings, m, buffer)
}
