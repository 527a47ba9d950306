// Noise types, of pairs of time deviations at each bound and one past it, and of long records.
use crate::print::Told;
use crate::records;
use noise::Noise;
use shown::Output;
use std::{fmt, io};

// The time deviations at m and 2m.
const PAIRS: [(u64, u64); 30] = [
    (4096, 0),
    (4096, 3444),
    (4096, 3445),
    (4096, 4871),
    (4096, 4872),
    (4096, 6889),
    (4096, 6890),
    (4096, 9742),
    (4096, 9743),
    (1, 0),
    (1, 1),
    (1, 2),
    (1, 3),
    (0, 0),
    (0, 1),
    (0, 4611686018427387904),
    (0, 4611686018427387905),
    (4611686018427387905, 0),
    (4611686018427387905, 4611686018427387905),
    (1, 4611686018427387904),
    (1, 4611686018427387905),
    (4611686018427387904, 1),
    (4611686018427387904, 3877599279165997056),
    (4611686018427387904, 3877599279165997057),
    (4611686018427387904, 4611686018427387904),
    (2741975022714266346, 4611686018427387904),
    (2741975022714266345, 4611686018427387904),
    (1938972072621492595, 4611686018427387904),
    (1938972072621492594, 4611686018427387904),
    (18446744073709551615, 18446744073709551615),
];
// Factors and lengths of records.
const SIZES: [(usize, usize); 17] = [
    (0, 32768),
    (1, 5),
    (1, 6),
    (1, 32768),
    (2, 11),
    (2, 12),
    (2, 32768),
    (3, 32768),
    (7, 32768),
    (100, 599),
    (100, 600),
    (100, 32768),
    (1000, 32768),
    (5461, 32765),
    (5461, 32766),
    (5461, 32768),
    (5462, 32768),
];

// A type by its alpha.
#[derive(Clone, Copy)]
struct Alpha(Noise);

impl fmt::Display for Alpha {
    fn fmt<W: fmt::Write>(&self, f: &mut fmt::Formatter<W>) -> fmt::Result {
        write!(f, "alpha {}", i64::from(self.0))
    }
}

// The types of the pairs, and of each record.
pub(crate) fn figures(out: Output) -> io::Result<()> {
    for (r1, r2) in PAIRS {
        let shown = Told(noise::by_deviations(r1, r2).map(Alpha));
        println!(out; "noise type of {r1}, {r2}: {shown}")?;
    }
    let mut samples = [0i64; 32768];
    for (name, rule) in records::RULES {
        records::fill(&mut samples, rule);
        sizes(out, name, &samples)?;
    }
    Ok(())
}

// A line for each size: the type of the first samples at a factor.
fn sizes(out: Output, name: &str, samples: &[i64]) -> io::Result<()> {
    for (m, length) in SIZES {
        if let Some(first) = samples.get(..length) {
            let shown = Told(noise::of_record(first, m as u64).map(Alpha));
            println!(out; "noise type of {name} m {m} N {length}: {shown}")?;
        }
    }
    Ok(())
}
