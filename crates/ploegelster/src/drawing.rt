// Drawn numbers, dots, noise types and bars.
ghost use Rattle.std.specs.Prelude.{◌≡◌};
ghost use Rattle.wide.specs.Wide.{value};
ghost use Rattle.plot.specs.Drawn.{drawn_answer};
ghost use Rattle.variances.specs.Answers.{allan_deviation_answer, time_deviation_answer};
ghost use Rattle.plot.specs.Dots.{dot_answer};
ghost use Rattle.noise.specs.Noise.{type_answer, record_type_answer};
ghost use Rattle.noise.specs.Told.{noise_told};
ghost use Rattle.ploegelster.specs.Boundary.{told_dot, told_noise, bars_by_alpha};

use noise::Noise;
use noise::bars::BarsAnswer;
use plot::dots::{Dot, DotAnswer};
use plot::drawn::DrawnAnswer;
use record::{Ground, Refused};
use wide::Wide;

// A dot as a kind, 0 nought, 1 drawn or 2 too few, and a double.
#[repr(C)]
#[derive(Clone, Copy)]
pub struct ToldDot {
    pub number: u64,
    pub place: u64,
    pub kind: u64,
    pub value: f64,
}

// A noise type as its alpha.
#[repr(C)]
#[derive(Clone, Copy)]
pub struct ToldNoise {
    pub number: u64,
    pub place: u64,
    pub alpha: i64,
}

// The greatest double not above r / 2^20.
#[unsafe(no_mangle)]
pub extern "C" fn plg_drawn_number(r: u64) -> DrawnAnswer
    ensures { result ≡ drawn_answer r }
{
    plot::drawn::drawn_number(r)
}

// The dot of an Allan deviation.
#[unsafe(no_mangle)]
pub extern "C" fn plg_allan_dot(sum: Wide, m: u64, count: u64) -> ToldDot
    ensures { result ≡ told_dot (dot_answer (allan_deviation_answer (value sum) m count)) }
{
    ToldDot::from(plot::dots::allan_dot(sum, m, count))
}

// The dot of a time deviation.
#[unsafe(no_mangle)]
pub extern "C" fn plg_time_dot(sum: Wide, m: u64, count: u64) -> ToldDot
    ensures { result ≡ told_dot (dot_answer (time_deviation_answer (value sum) m count)) }
{
    ToldDot::from(plot::dots::time_dot(sum, m, count))
}

// The noise type by the time deviations at m and 2m.
#[unsafe(no_mangle)]
pub extern "C" fn plg_noise_type(r1: u64, r2: u64) -> ToldNoise
    ensures { result ≡ told_noise (type_answer r1 r2) }
{
    ToldNoise::from(noise::by_deviations(r1, r2))
}

// The noise type of a record at factor m.
#[unsafe(no_mangle)]
pub extern "C" fn plg_noise_of_record(samples: &[i64], m: u64) -> ToldNoise
    ensures { result ≡ told_noise (record_type_answer m samples.now) }
{
    ToldNoise::from(noise::of_record(samples, m))
}

// The bars of deviation r with noise of type alpha over M intervals. Refuses 3 for any other alpha, then as bars do.
#[unsafe(no_mangle)]
pub extern "C" fn plg_bars(r: u64, alpha: i64, intervals: u64) -> BarsAnswer
    ensures { result ≡ bars_by_alpha r alpha intervals }
{
    match Noise::try_from(alpha) {
        Ok(noise) => noise::bars::bars(r, noise, intervals),
        Err(_) => BarsAnswer::from(Err(Ground::OutOfRange.at(0))),
    }
}

// A dot's kind and value beside its answer's number and place.
impl From<DotAnswer> for ToldDot {
    ghost from_gives = { λ answer told. told ≡ told_dot answer };

    fn from(answer: DotAnswer) -> ToldDot {
        let number = answer.number;
        let place = answer.place;
        match answer.dot {
            Dot::Drawn(value) => ToldDot {
                number,
                place,
                kind: 1,
                value,
            },
            Dot::Nought => ToldDot {
                number,
                place,
                kind: 0,
                value: 0.0,
            },
            Dot::TooFew => ToldDot {
                number,
                place,
                kind: 2,
                value: 0.0,
            },
        }
    }
}

// A type's alpha; nought beside a refusal.
impl From<Result<Noise, Refused>> for ToldNoise {
    ghost from_gives = { λ found told. told ≡ told_noise (noise_told found) };

    fn from(found: Result<Noise, Refused>) -> ToldNoise {
        match found {
            Ok(noise) => ToldNoise {
                number: 0,
                place: 0,
                alpha: noise.into(),
            },
            Err(refused) => ToldNoise {
                number: refused.why.into(),
                place: refused.place,
                alpha: 0,
            },
        }
    }
}
