// Variances as fractions in lowest terms, and deviations, of a sum with its factor and count. The sums are those of crate sums; drawing is left to
// others.

#![tactic(auto)]

pub mod deviations;
pub mod fractions;
mod refusals;

ghost use Rattle.std.specs.Prelude.{◌≡◌};
ghost use Rattle.wide.specs.Wide.{value};
ghost use Rattle.variances.specs.Answers.{allan_fraction_answer, time_fraction_answer, allan_deviation_answer, time_deviation_answer};
ghost use Rattle.variances.specs.Told.{fraction_told, deviation_told};

use crate::fractions::Fraction;
use record::Refused;
use sums::Sum;
use wide::Wide;

// A fraction in lowest terms as C is told it; noughts beside a refusal.
#[repr(C)]
#[derive(Clone, Copy)]
pub struct FractionAnswer {
    pub number: u64,
    pub place: u64,
    pub numerator: Wide,
    pub denominator: u64,
}

// A deviation in units of 2^-20 picoseconds as C is told it; nought beside a refusal.
#[repr(C)]
#[derive(Clone, Copy)]
pub struct DeviationAnswer {
    pub number: u64,
    pub place: u64,
    pub deviation: u64,
}

// The Allan variance A / (2 m^2 K) in lowest terms as C is told it. Refuses 5, 1, 2, then 3.
pub fn allan_fraction(sum: Wide, m: u64, count: u64) -> FractionAnswer
    ensures { result ≡ allan_fraction_answer (value sum) m count }
{
    FractionAnswer::from(fractions::allan_variance(Sum { total: sum, count }, m))
}

// The time variance B / (6 m^2 C) in lowest terms as C is told it. Refuses 5, 1, 2, then 3.
pub fn time_fraction(sum: Wide, m: u64, count: u64) -> FractionAnswer
    ensures { result ≡ time_fraction_answer (value sum) m count }
{
    FractionAnswer::from(fractions::time_variance(Sum { total: sum, count }, m))
}

// The deviation of the Allan variance as C is told it. Refuses 5, 1, 2, 3 for the sum, then 3 where it would be above 2^62.
pub fn allan_deviation(sum: Wide, m: u64, count: u64) -> DeviationAnswer
    ensures { result ≡ allan_deviation_answer (value sum) m count }
{
    DeviationAnswer::from(deviations::allan_root(Sum { total: sum, count }, m))
}

// The deviation of the time variance as C is told it. Refuses 5, 1, 2, 3 for the sum, then 3 where it would be above 2^62.
pub fn time_deviation(sum: Wide, m: u64, count: u64) -> DeviationAnswer
    ensures { result ≡ time_deviation_answer (value sum) m count }
{
    DeviationAnswer::from(deviations::time_root(Sum { total: sum, count }, m))
}

impl From<Result<Fraction, Refused>> for FractionAnswer {
    ghost from_gives = { λ variance answer. answer ≡ fraction_told variance };

    fn from(variance: Result<Fraction, Refused>) -> FractionAnswer {
        match variance {
            Ok(fraction) => FractionAnswer {
                number: 0,
                place: 0,
                numerator: fraction.numerator,
                denominator: fraction.denominator,
            },
            Err(refused) => FractionAnswer {
                number: refused.why.into(),
                place: refused.place,
                numerator: Wide { hi: 0, lo: 0 },
                denominator: 0,
            },
        }
    }
}

impl From<Result<u64, Refused>> for DeviationAnswer {
    ghost from_gives = { λ root answer. answer ≡ deviation_told root };

    fn from(root: Result<u64, Refused>) -> DeviationAnswer {
        match root {
            Ok(deviation) => DeviationAnswer {
                number: 0,
                place: 0,
                deviation,
            },
            Err(refused) => DeviationAnswer {
                number: refused.why.into(),
                place: refused.place,
                deviation: 0,
            },
        }
    }
}
