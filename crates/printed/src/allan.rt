// The worked example of section IV: eight frequency values of one second each, in units of 10^-7, and their Allan variance.
use crate::print::{Decimals, Verdict};
use crate::rounding::rounded;
use shown::{Output, Refusal};
use std::io;
use sums::Sum;
use variances::fractions::Fraction;
use variances::{deviations, fractions};

// The data values: 4.36, 4.61 and so on, times 10^-5.
const VALUES: [i64; 8] = [436, 461, 319, 421, 447, 396, 410, 308];
// The first differences squared as they are printed, in hundredths of 10^-10.
const SQUARES: [u64; 7] = [6, 202, 104, 7, 26, 2, 104];
// The sum as it is printed, in hundredths of 10^-10.
const SUM: u64 = 451;
// The number of pairs as it is printed.
const COUNT: u64 = 7;
// The variance as it is printed, in tenths of 10^-11.
const VARIANCE: u64 = 32;
// The deviation as it is printed, in tenths of 10^-6.
const DEVIATION: u64 = 56;
// So many units of a deviation are one: 2^20.
const UNITS: u64 = 1048576;

// The lines of the example.
pub(crate) fn figures(out: Output) -> io::Result<()> {
    let mut phases = [0i64; 9];
    match frequency::phases(0, &VALUES, &mut phases) {
        Ok(_) => of_phases(out, &phases),
        Err(refused) => println!(out; "phases {}", Refusal(refused)),
    }
}

// The lines of the phases.
fn of_phases(out: Output, phases: &[i64]) -> io::Result<()> {
    squares(out, phases)?;
    match sums::allan(phases, 1) {
        Ok(sum) => whole(out, sum),
        Err(refused) => println!(out; "Allan sum {}", Refusal(refused)),
    }
}

// The squares one by one: each is the Allan sum of three phases.
fn squares(out: Output, phases: &[i64]) -> io::Result<()> {
    for (three, printed) in phases.windows(3).zip(SQUARES) {
        square(out, three, printed)?;
    }
    Ok(())
}

// One line: a first difference squared.
fn square(out: Output, three: &[i64], printed: u64) -> io::Result<()> {
    let name = "first difference squared";
    match sums::allan(three, 1) {
        Ok(sum) => rounded_sum(out, name, sum.total.lo, printed),
        Err(refused) => println!(out; "{name} {}", Refusal(refused)),
    }
}

// The sum of the squares, their count, the variance and the deviation.
fn whole(out: Output, sum: Sum) -> io::Result<()> {
    let count = sum.count;
    rounded_sum(out, "sum", sum.total.lo, SUM)?;
    println!(out;
        "count {count}, printed {COUNT}: {}",
        Verdict::of(count, COUNT)
    )?;
    match fractions::allan_variance(sum, 1) {
        Ok(fraction) => variance(out, fraction)?,
        Err(refused) => println!(out; "variance {}", Refusal(refused))?,
    }
    match deviations::allan_root(sum, 1) {
        Ok(units) => deviation(out, units),
        Err(refused) => println!(out; "deviation {}", Refusal(refused)),
    }
}

// One line: a sum in units of 10^-14, rounded.
fn rounded_sum(out: Output, name: &str, sum: u64, printed: u64) -> io::Result<()> {
    let ours = rounded(sum, 100);
    println!(out;
        "{name} {sum} in 10^-14, rounded {}e-10, printed {}e-10: {}",
        Decimals::<2>(ours),
        Decimals::<2>(printed),
        Verdict::of(ours, printed)
    )
}

// One line: the variance. A half of a hundred is whole, so that the fraction's whole part is enough to round it. The denominator is never nought; that
// is tested, not assumed.
fn variance(out: Output, fraction: Fraction) -> io::Result<()> {
    let numerator = fraction.numerator.lo;
    let denominator = fraction.denominator;
    let whole = numerator.checked_div(denominator).unwrap_or(0);
    let ours = rounded(whole, 100);
    println!(out;
        "variance {numerator}/{denominator} in 10^-14, rounded {}e-11, printed {}e-11: {}",
        Decimals::<1>(ours),
        Decimals::<1>(VARIANCE),
        Verdict::of(ours, VARIANCE)
    )
}

// Two lines: the deviation, rounded and cut off. The note cuts off: even the root of its rounded 3.2e-11 is nearer 5.7e-6.
fn deviation(out: Output, units: u64) -> io::Result<()> {
    one_deviation(out, units, "rounded", rounded(units, UNITS))?;
    one_deviation(out, units, "cut off", units / UNITS)
}

// One line: the deviation in fewer digits.
fn one_deviation(out: Output, units: u64, how: &str, ours: u64) -> io::Result<()> {
    println!(out;
        "deviation {units}/{UNITS} in 10^-7, {how} {}e-6, printed {}e-6: {}",
        Decimals::<1>(ours),
        Decimals::<1>(DEVIATION),
        Verdict::of(ours, DEVIATION)
    )
}
