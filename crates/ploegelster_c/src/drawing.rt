// Drawn numbers, dots, noise types and bars.
ghost use Rattle.std.specs.Prelude.{◌≡◌};
ghost use Rattle.wide.specs.Wide.{value};
ghost use Rattle.plot.specs.Drawn.{drawn_answer};
ghost use Rattle.variances.specs.Answers.{allan_deviation_answer, time_deviation_answer};
ghost use Rattle.plot.specs.Dots.{dot_answer};
ghost use Rattle.noise.specs.Noise.{type_answer, record_type_answer};
ghost use Rattle.ploegelster.specs.Boundary.{told_dot, told_noise, bars_by_alpha};

use noise::bars::BarsAnswer;
use ploegelster::drawing::{ToldDot, ToldNoise};
use plot::drawn::DrawnAnswer;
use wide::Wide;

// The greatest double not above r / 2^20.
#[unsafe(no_mangle)]
pub extern "C" fn plg_drawn_number(r: u64) -> DrawnAnswer
    ensures { result ≡ drawn_answer r }
{
    ploegelster::drawing::plg_drawn_number(r)
}

// The dot of an Allan deviation.
#[unsafe(no_mangle)]
pub extern "C" fn plg_allan_dot(sum: Wide, m: u64, count: u64) -> ToldDot
    ensures { result ≡ told_dot (dot_answer (allan_deviation_answer (value sum) m count)) }
{
    ploegelster::drawing::plg_allan_dot(sum, m, count)
}

// The dot of a time deviation.
#[unsafe(no_mangle)]
pub extern "C" fn plg_time_dot(sum: Wide, m: u64, count: u64) -> ToldDot
    ensures { result ≡ told_dot (dot_answer (time_deviation_answer (value sum) m count)) }
{
    ploegelster::drawing::plg_time_dot(sum, m, count)
}

// The noise type by the time deviations at m and 2m.
#[unsafe(no_mangle)]
pub extern "C" fn plg_noise_type(r1: u64, r2: u64) -> ToldNoise
    ensures { result ≡ told_noise (type_answer r1 r2) }
{
    ploegelster::drawing::plg_noise_type(r1, r2)
}

// The noise type of a record at factor m.
#[unsafe(no_mangle)]
pub extern "C" fn plg_noise_of_record(samples: &[i64], m: u64) -> ToldNoise
    ensures { result ≡ told_noise (record_type_answer m samples.now) }
{
    ploegelster::drawing::plg_noise_of_record(samples, m)
}

// The bars of deviation r with noise of type alpha over M intervals. Refuses 3 for any other alpha, then as bars do.
#[unsafe(no_mangle)]
pub extern "C" fn plg_bars(r: u64, alpha: i64, intervals: u64) -> BarsAnswer
    ensures { result ≡ bars_by_alpha r alpha intervals }
{
    ploegelster::drawing::plg_bars(r, alpha, intervals)
}
