// The example of an error bar: a deviation of 10^-12 with flicker frequency noise, alpha -1, and M = 100 gives (1 +- 0.08) 10^-12.
use crate::print::{Decimals, Verdict};
use crate::rounding::rounded;
use noise::bars::Bar;
use noise::{Noise, bars};
use shown::{Output, Refusal};
use std::io;

// The deviation: a million units are 10^-12.
const UNIT: u64 = 1000000;
// M.
const INTERVALS: u64 = 100;
// The half of the bar as it is printed, in thousandths of the deviation.
const RATIO: u64 = 77;
// The same in hundredths.
const HALF: u64 = 8;

// The lines of the example.
pub(crate) fn figures(out: Output) -> io::Result<()> {
    match bars::row(UNIT, Noise::FlickerFrequency, INTERVALS) {
        Ok(bar) => halves(out, bar),
        Err(refused) => println!(out; "bar {}", Refusal(refused)),
    }
}

// The lines of both halves.
fn halves(out: Output, bar: Bar) -> io::Result<()> {
    half(out, "above", units(bar.high - bar.mid))?;
    half(out, "below", units(bar.mid - bar.low))
}

// Two lines: one half of the bar, as a part of the deviation.
fn half(out: Output, side: &str, h: u64) -> io::Result<()> {
    let ratio = rounded(h, 1000);
    println!(out;
        "half of the bar {side} {h}/{UNIT}, rounded {}, printed {}: {}",
        Decimals::<3>(ratio),
        Decimals::<3>(RATIO),
        Verdict::of(ratio, RATIO)
    )?;
    let hundredths = rounded(h, 10000);
    println!(out;
        "half of the bar {side} {h}/{UNIT}, rounded {}, printed {}: {}",
        Decimals::<2>(hundredths),
        Decimals::<2>(HALF),
        Verdict::of(hundredths, HALF)
    )
}

// A double as a number of 2^-20, which it is exactly here: the three of the bar are such numbers below 2^53.
fn units(x: f64) -> u64 {
    std::num::saturating_f64_to_u64(x * 1048576.0)
}
