// Sums, fractions and deviations of long records at many factors and lengths.
use crate::print::{Fraction, Told};
use crate::records;
use record::Refused;
use shown::{Output, Sum};
use std::{fmt, io};
use variances::{deviations, fractions};

// The factors, from the smallest to the largest.
const FACTORS: [u16; 7] = [1, 2, 3, 7, 100, 5000, 10922];

// A sum, its count, its variance and its deviation.
#[derive(Clone, Copy)]
struct Whole(Sum, Fraction, u64);

impl fmt::Display for Whole {
    fn fmt<W: fmt::Write>(&self, f: &mut fmt::Formatter<W>) -> fmt::Result {
        write!(f, "{}, {}, {}", self.0, self.1, self.2)
    }
}

// The lines of each record at each factor.
pub(crate) fn figures(out: Output) -> io::Result<()> {
    let mut samples = [0i64; 32768];
    for (name, rule) in records::RULES {
        records::fill(&mut samples, rule);
        for m in FACTORS {
            all_lengths(out, name, &samples, m)?;
        }
    }
    Ok(())
}

// The lengths at which a sum becomes due, and the longest.
fn all_lengths(out: Output, name: &str, samples: &[i64], m: u16) -> io::Result<()> {
    let factor = m as usize;
    for length in [
        2 * factor,
        2 * factor + 1,
        (3 * factor).saturating_sub(1),
        3 * factor,
        32768,
    ] {
        if let Some(first) = samples.get(..length) {
            one_length(out, name, first, m as u64)?;
        }
    }
    Ok(())
}

// One record's lines: its Allan figures and its modified ones.
fn one_length(out: Output, name: &str, samples: &[i64], m: u64) -> io::Result<()> {
    let length = samples.len();
    println!(out; "{name} m {m} N {length} Allan {}", Told(allan(samples, m)))?;
    println!(out;
        "{name} m {m} N {length} modified {}",
        Told(modified(samples, m))
    )
}

// The Allan sum, its count, its variance and deviation.
fn allan(samples: &[i64], m: u64) -> Result<Whole, Refused> {
    let sum = sums::allan(samples, m)?;
    let variance = fractions::allan_variance(sum, m)?;
    let root = deviations::allan_root(sum, m)?;
    Ok(Whole(Sum(sum), Fraction(variance), root))
}

// The modified sum, its count, the time variance and its deviation.
fn modified(samples: &[i64], m: u64) -> Result<Whole, Refused> {
    let sum = sums::modified(samples, m)?;
    let variance = fractions::time_variance(sum, m)?;
    let root = deviations::time_root(sum, m)?;
    Ok(Whole(Sum(sum), Fraction(variance), root))
}
