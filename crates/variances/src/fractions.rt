// Fractions in lowest terms.
ghost use Rattle.std.specs.Prelude.{◌≡◌, Ok, ◌*◌, ◌≤◌, ◌<◌};
ghost use Rattle.wide.specs.Wide.{value};
ghost use Rattle.record.specs.Refusals.{none};
ghost use Rattle.variances.specs.Fractions.{gcd as greatestDivisor};
ghost use Rattle.variances.specs.Answers.{figure_refusal, fraction_answer, allan_fraction_answer, time_fraction_answer};
ghost use Rattle.variances.specs.Told.{fraction_told};

use crate::refusals;
use record::Refused;
use sums::Sum;
use wide::Wide;

// A fraction.
#[derive(Clone, Copy)]
pub struct Fraction {
    pub numerator: Wide,
    pub denominator: u64,
}

// The Allan variance A / (2 m^2 K) in lowest terms. Refuses 5, 1, 2, then 3.
pub fn allan_variance(sum: Sum, m: u64) -> Result<Fraction, Refused>
    ensures { fraction_told result ≡ allan_fraction_answer (value sum.total) m sum.count }
{
    variance(2, sum, m)
}

// The time variance B / (6 m^2 C) in lowest terms. Refuses 5, 1, 2, then 3.
pub fn time_variance(sum: Sum, m: u64) -> Result<Fraction, Refused>
    ensures { fraction_told result ≡ time_fraction_answer (value sum.total) m sum.count }
{
    variance(6, sum, m)
}

// The variance total / (scale m^2 count) in lowest terms; the scale is 2 for Allan, 6 for time.
fn variance(scale: u64, sum: Sum, m: u64) -> Result<Fraction, Refused>
    requires { (0 < scale) × (scale ≤ 6) }
    ensures { fraction_told result ≡ fraction_answer (figure_refusal (value sum.total) m sum.count) (value sum.total) (scale * (m * m) * sum.count) }
{
    refusals::check(sum, m)?;
    Ok(lowest(sum.total, scale * (m * m) * sum.count))
}

// sum / d in lowest terms.
fn lowest(sum: Wide, d: u64) -> Fraction
    requires { 0 < d }
    ensures { fraction_told (Ok result) ≡ fraction_answer none (value sum) d }
{
    let first = wide::divided(sum, d).unwrap();
    let divisor = gcd(d, first.remainder);
    let reduced = wide::divided(sum, divisor).unwrap();
    let numerator = reduced.quotient;
    let denominator = d / divisor;
    Fraction {
        numerator,
        denominator,
    }
}

// The greatest common divisor, by Euclid's rule of repeated remainders: the second number falls at each call.
fn gcd(a: u64, b: u64) -> u64
    ensures { result ≡ greatestDivisor a b }
{
    if b == 0 {
        return a;
    }
    gcd(b, a % b)
}
