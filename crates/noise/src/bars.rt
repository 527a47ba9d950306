// Error bars of a deviation.
ghost use Rattle.std.specs.Prelude.{◌≡◌, ◌*◌, ◌/◌, ◌≤◌, ◌<◌, ◌^◌, leb};
ghost use Rattle.laws.specs.Greatest.{greatest};
ghost use Rattle.plot.specs.Drawn.{drawn_number};
ghost use Rattle.record.specs.Told.{told};
ghost use Rattle.noise.specs.Bars.{bars_refusal, bar_of, no_bar, bars_answer};
ghost use Rattle.noise.specs.Told.{bars_told};

use crate::{LARGEST_DEVIATION, Noise};
use record::{Ground, Refused};

// Three doubles: the lower end, the deviation, the upper end.
#[repr(C)]
#[derive(Clone, Copy)]
pub struct Bar {
    pub low: f64,
    pub mid: f64,
    pub high: f64,
}

// A bar row as C is told it; noughts beside a refusal.
#[repr(C)]
#[derive(Clone, Copy)]
pub struct BarsAnswer {
    pub number: u64,
    pub place: u64,
    pub bar: Bar,
}

// The bar of deviation r with noise of a type over M intervals. Refuses 8, 3, 1, then 2.
pub fn row(r: u64, noise: Noise, intervals: u64) -> Result<Bar, Refused>
    ensures { bars_told result ≡ bars_answer r noise intervals }
{
    check_bars(r, intervals)?;
    let half = half_of(width_of(r, noise.kappa()), intervals);
    Ok(bar_of(r, half))
}

// The same as C is told it.
pub fn bars(r: u64, noise: Noise, intervals: u64) -> BarsAnswer
    ensures { result ≡ bars_answer r noise intervals }
{
    BarsAnswer::from(row(r, noise, intervals))
}

impl From<Result<Bar, Refused>> for BarsAnswer {
    ghost from_gives = { λ row answer. answer ≡ bars_told row };

    fn from(row: Result<Bar, Refused>) -> BarsAnswer {
        match row {
            Ok(bar) => BarsAnswer {
                number: 0,
                place: 0,
                bar,
            },
            Err(refused) => BarsAnswer {
                number: refused.why.into(),
                place: refused.place,
                bar: no_bar(),
            },
        }
    }
}

// 8 for r = 0, 3 for r above 2^62, 1 for M below 10, 2 for M above 32,767.
fn check_bars(r: u64, intervals: u64) -> Result<(), Refused>
    ensures { told result ≡ bars_refusal r intervals }
{
    if r == 0 {
        return Err(Ground::NoDeviation.at(0));
    }
    if LARGEST_DEVIATION < r {
        return Err(Ground::OutOfRange.at(0));
    }
    if intervals < 10 {
        return Err(Ground::TooFew.at(0));
    }
    if record::MOST_READINGS < intervals {
        return Err(Ground::TooMany.at(0));
    }
    Ok(())
}

// w: kappa hundredths of r, floored. With r = 100 q + s it is kappa q + floor(kappa s / 100), which fits a word.
fn width_of(r: u64, kappa: u64) -> u64
    requires { (r ≤ 2 ^ 62) × (kappa < 100) }
    ensures { result ≡ kappa * r / 100 }
{
    kappa * (r / 100) + kappa * (r % 100) / 100
}

// h: the greatest whole number with h^2 M not above w^2, which is the root of w^2 / M.
fn half_of(width: u64, intervals: u64) -> u64
    requires { 1 ≤ intervals }
    ensures { result ≡ greatest 64 (λ k. leb (k * k * intervals) (width * width)) }
{
    let square = wide::product(width, width);
    wide::root(wide::divided(square, intervals).unwrap().quotient)
}

// The row drawn from r - h, r and r + h; h is below r, so that r - h is no wrap and at least 1.
fn bar_of(r: u64, half: u64) -> Bar
    requires { (r ≤ 2 ^ 62) × (half < r) }
    ensures { result ≡ bar_of r half }
{
    let low = draw(r - half);
    let mid = draw(r);
    let high = draw(r + half);
    Bar { low, mid, high }
}

// The double of a number from 1 to 2^63.
fn draw(r: u64) -> f64
    requires { (1 ≤ r) × (r ≤ 2 ^ 63) }
    ensures { result ≡ drawn_number r }
{
    plot::drawn::number(r).unwrap()
}

// Noughts.
fn no_bar() -> Bar
    ensures { result ≡ no_bar }
{
    Bar {
        low: 0.0,
        mid: 0.0,
        high: 0.0,
    }
}
