// Error bars of deviations, with each noise type and at the ends of what is taken.
use crate::print::{Double, Told};
use noise::bars::Bar;
use noise::{Noise, bars};
use shown::Output;
use std::{fmt, io};

// Deviation r, noise type and M.
const ROWS: [(u64, Noise, u64); 20] = [
    (1000000, Noise::FlickerFrequency, 9),
    (1000000, Noise::FlickerFrequency, 10),
    (1000000, Noise::FlickerFrequency, 32767),
    (1000000, Noise::FlickerFrequency, 32768),
    (1000000, Noise::WhitePhase, 100),
    (1000000, Noise::FlickerPhase, 100),
    (1000000, Noise::WhiteFrequency, 100),
    (1000000, Noise::FlickerFrequency, 100),
    (1000000, Noise::RandomWalkFrequency, 100),
    (0, Noise::WhitePhase, 100),
    (0, Noise::WhitePhase, 9),
    (1, Noise::WhitePhase, 10),
    (4, Noise::WhitePhase, 10),
    (5, Noise::WhitePhase, 10),
    (4611686018427387904, Noise::WhitePhase, 10),
    (4611686018427387904, Noise::RandomWalkFrequency, 32767),
    (4611686018427387905, Noise::WhitePhase, 10),
    (4611686018427387905, Noise::WhitePhase, 9),
    (9007199254740993, Noise::WhiteFrequency, 11),
    (18446744073709551615, Noise::WhitePhase, 32768),
];

// The three doubles of a bar.
#[derive(Clone, Copy)]
struct Ends(Bar);

impl fmt::Display for Ends {
    fn fmt<W: fmt::Write>(&self, f: &mut fmt::Formatter<W>) -> fmt::Result {
        let bar = self.0;
        write!(
            f,
            "{} {} {}",
            Double(bar.low),
            Double(bar.mid),
            Double(bar.high)
        )
    }
}

// A line for each row. The types are numbered as the rules' table has them, from alpha 2 down.
pub(crate) fn figures(out: Output) -> io::Result<()> {
    for (r, noise, m) in ROWS {
        let told = Told(bars::row(r, noise, m).map(Ends));
        println!(out; "bar of {r} with type {}, M = {m}: {told}", noise as u64)?;
    }
    Ok(())
}
