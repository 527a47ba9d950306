// Fractions and plot dots of sums with a factor and a count, Allan and time.
use crate::print::{Double, Fraction, Told};
use plot::dots;
use plot::dots::Dot;
use shown::Output;
use std::{fmt, io};
use sums::Sum;
use variances::fractions;
use wide::Wide;

// The sum's high and low half, m and the count.
const ROWS: [(u64, u64, u64, u64); 24] = [
    (0, 16, 1, 4),
    (0, 128, 2, 2),
    (0, 256, 2, 1),
    (0, 0, 1, 1),
    (0, 0, 10922, 32768),
    (0, 1, 10922, 32768),
    (0, 7, 10922, 32768),
    (0, 8, 10922, 32768),
    (0, 22, 10922, 32768),
    (0, 1, 1, 32768),
    (0, 1, 1, 1),
    (0, 16, 1, 0),
    (0, 16, 0, 4),
    (0, 16, 0, 0),
    (0, 16, 10923, 0),
    (0, 16, 1, 32768),
    (0, 16, 1, 32769),
    (4611686018427387904, 0, 1, 0),
    (4611686018427387904, 0, 1, 1),
    (4611686018427387904, 0, 1, 32769),
    (4611686018427387903, 18446744073709551615, 1, 1),
    (2097152, 16777216, 1, 1),
    (2097152, 16777217, 1, 1),
    (4611686018427387903, 18446744073709551615, 10922, 32768),
];

// A dot as a line shows it.
#[derive(Clone, Copy)]
struct Shown(Dot);

impl fmt::Display for Shown {
    fn fmt<W: fmt::Write>(&self, f: &mut fmt::Formatter<W>) -> fmt::Result {
        match self.0 {
            Dot::Drawn(value) => write!(f, "{}", Double(value)),
            Dot::Nought => f.write_str("nought"),
            Dot::TooFew => f.write_str("too few"),
        }
    }
}

// Four lines for each row: the two fractions and the two dots of one sum.
pub(crate) fn figures(out: Output) -> io::Result<()> {
    for (hi, lo, m, count) in ROWS {
        let total = Wide { hi, lo };
        let sum = Sum { total, count };
        both_fractions(out, sum, m)?;
        both_dots(out, sum, m)?;
    }
    Ok(())
}

// The Allan fraction and the time fraction.
fn both_fractions(out: Output, sum: Sum, m: u64) -> io::Result<()> {
    let of = shown::Sum(sum);
    let allan = Told(fractions::allan_variance(sum, m).map(Fraction));
    println!(out; "Allan fraction of {of}, m = {m}: {allan}")?;
    let time = Told(fractions::time_variance(sum, m).map(Fraction));
    println!(out; "time fraction of {of}, m = {m}: {time}")
}

// The Allan dot and the time dot.
fn both_dots(out: Output, sum: Sum, m: u64) -> io::Result<()> {
    let of = shown::Sum(sum);
    let allan = Told(dots::dot_of_allan(sum, m).map(Shown));
    println!(out; "Allan dot of {of}, m = {m}: {allan}")?;
    let time = Told(dots::dot_of_time(sum, m).map(Shown));
    println!(out; "time dot of {of}, m = {m}: {time}")
}
