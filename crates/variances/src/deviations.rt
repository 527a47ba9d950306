// Deviations: the greatest r with r^2 D not above A times 2^40, bit by bit.
ghost use Rattle.std.specs.Prelude.{◌≡◌, cond, false, ◌+◌, ◌*◌, ◌≤◌, ◌<◌, ◌^◌, ltb};
ghost use Rattle.wide.specs.Wide.{value};
ghost use Rattle.record.specs.Refusals.{refused_if, ◌then◌};
ghost use Rattle.variances.specs.Deviations.{within};
ghost use Rattle.variances.specs.Deviations.{deviation as greatestWithin};
ghost use Rattle.variances.specs.Answers.{figure_refusal, deviation_answer, allan_deviation_answer, time_deviation_answer};
ghost use Rattle.variances.specs.Told.{deviation_told};

use crate::refusals;
use record::{Ground, Refused};
use sums::Sum;
use wide::Wide;

// A deviation is at most this many units of 2^-20 picoseconds: 2^62.
const LARGEST_DEVIATION: u64 = 4611686018427387904;

// The deviation of the Allan variance. Refuses 5, 1, 2, 3 for the sum, then 3 where it would be above 2^62.
pub fn allan_root(sum: Sum, m: u64) -> Result<u64, Refused>
    ensures { deviation_told result ≡ allan_deviation_answer (value sum.total) m sum.count }
{
    of_variance(2, sum, m)
}

// The deviation of the time variance. Refuses 5, 1, 2, 3 for the sum, then 3 where it would be above 2^62.
pub fn time_root(sum: Sum, m: u64) -> Result<u64, Refused>
    ensures { deviation_told result ≡ time_deviation_answer (value sum.total) m sum.count }
{
    of_variance(6, sum, m)
}

// The deviation of the variance total / (scale m^2 count); the scale is 2 for Allan, 6 for time.
fn of_variance(scale: u64, sum: Sum, m: u64) -> Result<u64, Refused>
    requires { (0 < scale) × (scale ≤ 6) }
    ensures { deviation_told result ≡ deviation_answer (figure_refusal (value sum.total) m sum.count then refused_if (ltb (2 ^ 62) (greatestWithin (value sum.total) (scale * (m * m) * sum.count))) 3 0) (greatestWithin (value sum.total) (scale * (m * m) * sum.count)) }
{
    refusals::check(sum, m)?;
    deviation(sum.total, scale * (m * m) * sum.count)
}

// The deviation of sum / d, or 3 where it would be above 2^62.
fn deviation(sum: Wide, d: u64) -> Result<u64, Refused>
    requires { (0 < d) × (value sum < 2 ^ 126) }
    ensures { deviation_told result ≡ deviation_answer (refused_if (ltb (2 ^ 62) (greatestWithin (value sum) d)) 3 0) (greatestWithin (value sum) d) }
{
    if wide::square_at_most(LARGEST_DEVIATION + 1, d, sum) {
        return Err(Ground::OutOfRange.at(0));
    }
    Ok(by_bits(sum, d))
}

// The deviation where it is not above 2^62.
fn by_bits(sum: Wide, d: u64) -> u64
    requires { (0 < d) × (value sum < 2 ^ 126) × (within (value sum) d (2 ^ 62 + 1) ≡ false) }
    ensures { result ≡ greatestWithin (value sum) d }
{
    let mut r: u64 = 0;
    for bit in (0..63u64).rev() {
        r = with_bit(r, 1 << bit, sum, d);
    }
    r
}

// r with a further bit, if it stays within the deviation.
fn with_bit(r: u64, unit: u64, sum: Wide, d: u64) -> u64
    requires { r + unit < 2 ^ 64 }
    ensures { result ≡ cond (within (value sum) d (r + unit)) (r + unit) r }
{
    let next = r + unit;
    if wide::square_at_most(next, d, sum) {
        next
    } else {
        r
    }
}
