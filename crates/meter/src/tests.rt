// Whether a meter and its ring hold together. Every field of a meter may have been made by hand.
ghost use Rattle.std.specs.Prelude.{◌≡◌, true, false, cond, ◌&&◌, ◌*◌, ◌≤◌, ◌^◌, leb, ltb, eqb, nat_abs, length, MatchResult};
ghost use Rattle.record.specs.Refusals.{refused, in_range};
ghost use Rattle.record.specs.Told.{told};
ghost use Rattle.record.specs.declared.grounds.Ground.TheVariants.{BadMeter};
ghost use Rattle.meter.specs.Meter.{counts_fit, holds_together};

use crate::Meter;
use record::{Ground, Refused};

// A meter that does not hold together is refused 7.
pub(crate) fn check(meter: Meter) -> Result<(), Refused>
    ensures { MatchResult result (λ _. holds_together meter ≡ true) (λ e. (holds_together meter ≡ false) × (e ≡ record { why = BadMeter; place = 0 })) }
{
    if !holds_together(meter) {
        return Err(Ground::BadMeter.at(0));
    }
    Ok(())
}

// A meter that does not hold together is refused 7, and so is one whose ring is shorter than 3m.
pub(crate) fn check_slots(meter: Meter, ring: &[i64]) -> Result<(), Refused>
    ensures { MatchResult result
        (λ _. (holds_together meter && leb (3 * meter.m) (length ring.now)) ≡ true)
        (λ e. ((holds_together meter && leb (3 * meter.m) (length ring.now)) ≡ false) × (e ≡ record { why = BadMeter; place = 0 })) }
{
    if !slots_lie(meter, ring) {
        return Err(Ground::BadMeter.at(0));
    }
    Ok(())
}

// What is tested of a meter and of its ring's length.
fn slots_lie(meter: Meter, ring: &[i64]) -> bool
    ensures { result ≡ holds_together meter && leb (3 * meter.m) (length ring.now) }
{
    holds_together(meter) && 3 * meter.m <= ring.len() as u64
}

// 7 for an old sample, 2, then 3 for the new one.
pub(crate) fn check_sample(n: u64, one: i64, two: i64, three: i64, x: i64) -> Result<(), Refused>
    ensures { told result ≡ refused (cond (in_range one && (in_range two && in_range three)) (cond (eqb n 32768) 2 (cond (in_range x) 0 3)) 7) 0 }
{
    if !in_range(one, two, three) {
        return Err(Ground::BadMeter.at(0));
    }
    if n == Meter::MOST_SAMPLES {
        return Err(Ground::TooMany.at(0));
    }
    if !record::in_range(x) {
        return Err(Ground::OutOfRange.at(0));
    }
    Ok(())
}

// Whether the three old samples lie in their range.
fn in_range(one: i64, two: i64, three: i64) -> bool
    ensures { result ≡ (in_range one && (in_range two && in_range three)) }
{
    record::in_range(one) && record::in_range(two) && record::in_range(three)
}

// What is tested of the meter alone. The factor comes first: nothing is multiplied by one out of range.
fn holds_together(meter: Meter) -> bool
    ensures { result ≡ holds_together meter }
{
    let m = meter.m;
    if m < 1 {
        return false;
    }
    if Meter::LARGEST_FACTOR < m {
        return false;
    }
    let n = meter.n;
    if Meter::MOST_SAMPLES < n {
        return false;
    }
    if !counts_fit(meter) {
        return false;
    }
    window_within(meter.window, m) && high_halves_hold(meter)
}

// The count in the present stretch and both term counts are not above the count of all.
fn counts_fit(meter: Meter) -> bool
    ensures { result ≡ counts_fit meter }
{
    let n = meter.n;
    meter.stretch <= n && meter.k <= n && meter.c <= n
}

// The window sum is within m times 2^42 either way; a real stream reaches it.
fn window_within(window: i64, m: u64) -> bool
    requires { m ≤ 10922 }
    ensures { result ≡ leb (nat_abs window) (m * 2 ^ 42) }
{
    let end = m as i64 * 4398046511104;
    if window < -end {
        return false;
    }
    window <= end
}

// Both high halves are below 2^62.
fn high_halves_hold(meter: Meter) -> bool
    ensures { result ≡ ltb meter.a.hi (2 ^ 62) && ltb meter.b.hi (2 ^ 62) }
{
    meter.a.hi < 4611686018427387904 && meter.b.hi < 4611686018427387904
}
