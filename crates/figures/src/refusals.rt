// Which records are taken, and what the others are refused for.
use crate::print::Told;
use record::{Demand, LARGEST_SAMPLE};
use shown::Output;
use std::io;

// Samples at the ends of the range and one past them, in records of three at m = 1, in words and as they are; the place is the index of the first
// outside.
const ENDS: [(&str, [i64; 3]); 6] = [
    ("2^40, 0, 0", [LARGEST_SAMPLE, 0, 0]),
    ("0, -2^40, 0", [0, -LARGEST_SAMPLE, 0]),
    ("2^40 + 1, 0, 0", [LARGEST_SAMPLE + 1, 0, 0]),
    ("0, 2^40 + 1, 0", [0, LARGEST_SAMPLE + 1, 0]),
    ("0, 0, -2^40 - 1", [0, 0, -LARGEST_SAMPLE - 1]),
    (
        "0, -2^40 - 1, 2^40 + 1",
        [0, -LARGEST_SAMPLE - 1, LARGEST_SAMPLE + 1],
    ),
];
// A sum in words, what it asks, the factor, and how many noughts the record has.
const SIZES: [(&str, Demand, u64, usize); 18] = [
    // N = 2m is too few for the Allan sum, and N = 2m + 1 is enough.
    ("Allan", sums::ALLAN, 1, 2),
    ("Allan", sums::ALLAN, 1, 3),
    ("Allan", sums::ALLAN, 2, 4),
    ("Allan", sums::ALLAN, 2, 5),
    ("Allan", sums::ALLAN, 3, 6),
    ("Allan", sums::ALLAN, 3, 7),
    // N = 3m - 1 is too few for the modified sum, and N = 3m is enough.
    ("modified", sums::MODIFIED, 1, 2),
    ("modified", sums::MODIFIED, 1, 3),
    ("modified", sums::MODIFIED, 2, 5),
    ("modified", sums::MODIFIED, 2, 6),
    ("modified", sums::MODIFIED, 3, 8),
    ("modified", sums::MODIFIED, 3, 9),
    // The factor runs from 1 to 10,922.
    ("Allan", sums::ALLAN, 0, 32768),
    ("Allan", sums::ALLAN, 10923, 32768),
    ("Allan", sums::ALLAN, 10922, 32768),
    ("modified", sums::MODIFIED, 10922, 32768),
    // A record has at most 32,768 samples.
    ("Allan", sums::ALLAN, 1, 32768),
    ("Allan", sums::ALLAN, 1, 32769),
];

// A line for each record.
pub(crate) fn figures(out: Output) -> io::Result<()> {
    for (words, samples) in ENDS {
        let verdict = verdict(sums::ALLAN, 1, &samples);
        println!(out; "samples {words}: {verdict}")?;
    }
    sizes(out, &[0; 32769])
}

// The lines of records of noughts.
fn sizes(out: Output, noughts: &[i64]) -> io::Result<()> {
    for (sum, demand, m, length) in SIZES {
        if let Some(samples) = noughts.get(..length) {
            let verdict = verdict(demand, m, samples);
            println!(out; "{sum} sum, m = {m}, {length} samples of nought: {verdict}")?;
        }
    }
    Ok(())
}

// That a record is taken, or its refusal.
fn verdict(demand: Demand, m: u64, samples: &[i64]) -> Told<&'static str> {
    Told(record::check_record(demand, m, samples).map(|()| "taken"))
}
