// Plot dots: a drawn number, or nought, or too few.
ghost use Rattle.std.specs.Prelude.{◌≡◌, Ok, Err, ◌^◌, ◌≤◌};
ghost use Rattle.wide.specs.Wide.{value};
ghost use Rattle.variances.specs.Answers.{allan_deviation_answer, time_deviation_answer};
ghost use Rattle.variances.specs.Told.{deviation_told};
ghost use Rattle.plot.specs.Dots.{dot_answer};
ghost use Rattle.plot.specs.Told.{dot_told};

use crate::drawn::draw;
use record::{Ground, Refused};
use sums::Sum;
use variances::deviations;
use wide::Wide;

// What stands at a place of the plot.
#[derive(Clone, Copy)]
pub enum Dot {
    Drawn(f64),
    Nought,
    TooFew,
}

// A dot with the number and the place of its refusal; beside a refusal it is nought.
#[derive(Clone, Copy)]
pub struct DotAnswer {
    pub number: u64,
    pub place: u64,
    pub dot: Dot,
}

// The dot of an Allan deviation. Refuses 5, 2, 3; a count of 0 is too few.
pub fn dot_of_allan(sum: Sum, m: u64) -> Result<Dot, Refused>
    ensures { dot_told result ≡ dot_answer (allan_deviation_answer (value sum.total) m sum.count) }
{
    dot_of(deviations::allan_root(sum, m))
}

// The dot of a time deviation. Refuses 5, 2, 3; a count of 0 is too few.
pub fn dot_of_time(sum: Sum, m: u64) -> Result<Dot, Refused>
    ensures { dot_told result ≡ dot_answer (time_deviation_answer (value sum.total) m sum.count) }
{
    dot_of(deviations::time_root(sum, m))
}

// The dot of an Allan deviation with its number and place.
pub fn allan_dot(sum: Wide, m: u64, count: u64) -> DotAnswer
    ensures { result ≡ dot_answer (allan_deviation_answer (value sum) m count) }
{
    DotAnswer::from(dot_of_allan(Sum { total: sum, count }, m))
}

// The dot of a time deviation with its number and place.
pub fn time_dot(sum: Wide, m: u64, count: u64) -> DotAnswer
    ensures { result ≡ dot_answer (time_deviation_answer (value sum) m count) }
{
    DotAnswer::from(dot_of_time(Sum { total: sum, count }, m))
}

impl From<Result<Dot, Refused>> for DotAnswer {
    ghost from_gives = { λ dot answer. answer ≡ dot_told dot };

    fn from(dot: Result<Dot, Refused>) -> DotAnswer {
        match dot {
            Ok(dot) => DotAnswer {
                number: 0,
                place: 0,
                dot,
            },
            Err(refused) => DotAnswer {
                number: refused.why.into(),
                place: refused.place,
                dot: Dot::Nought,
            },
        }
    }
}

// The dot of a deviation.
fn dot_of(deviation: Result<u64, Refused>) -> Result<Dot, Refused>
    requires { (deviation_told deviation).deviation ≤ 2 ^ 62 }
    ensures { dot_told result ≡ dot_answer (deviation_told deviation) }
{
    match deviation {
        Ok(r) => Ok(of_units(r)),
        Err(refused) => too_few_or(refused),
    }
}

// The dot of so many units: a deviation of nought has its own.
fn of_units(r: u64) -> Dot
    requires { r ≤ 2 ^ 62 }
    ensures { dot_told (Ok result) ≡ dot_answer (deviation_told (Ok r)) }
{
    if r == 0 {
        return Dot::Nought;
    }
    Dot::Drawn(draw(r))
}

// Too few samples are a dot of their own; any other refusal stands.
fn too_few_or(refused: Refused) -> Result<Dot, Refused>
    ensures { dot_told result ≡ dot_answer (deviation_told (Err refused)) }
{
    match refused.why {
        Ground::TooFew => Ok(Dot::TooFew),
        _ => Err(refused),
    }
}
