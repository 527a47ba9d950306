// The entries that fill a lent buffer: phases of readings, differences of samples, samples without their drift. The drift's figure stands beside.
use crate::print::Told;
use crate::records;
use drift::Drift;
use record::Refused;
use shown::{Output, Sum, Values};
use std::{fmt, io};

// The entries.
#[derive(Clone, Copy)]
enum Entry {
    Phases,
    Differences,
    Removal,
}

// How many values an entry wrote.
#[derive(Clone, Copy)]
struct Written(u64);

// P and R of a drift.
#[derive(Clone, Copy)]
struct Shown(Drift);

// Records of four values.
const ROWS: [[i64; 4]; 19] = [
    [3, -1, 4, -1],
    [5, 8, 11, 14],
    [0, 0, 0, -1],
    [0, 0, 0, 1],
    [0, 1, 1, 0],
    [0, -1, 1, -3],
    [0, 1099511627776, -1099511627776, 1099511627777],
    [0, 1099511627776, -1099511627776, 1099511627776],
    [1099511627776, -1099511627776, -1099511627776, 1099511627776],
    [-1099511627776, 1099511627776, 1099511627776, -1099511627776],
    [-1099511627776, 2199023255552, -2199023255552, 2199023255552],
    [1099511627776, 1, 0, 0],
    [-1099511627776, -1, 0, 0],
    [1, 1099511627775, -2199023255552, -1],
    [2199023255553, 0, 0, 0],
    [1, 9223372036854775807, 0, 0],
    [-1, -9223372036854775807, 0, 0],
    [0, 0, 0, 1099511627777],
    [-1099511627777, 0, 0, 1099511627777],
];
// Shorter records, and longer ones: h is above 1 from five samples on.
const OTHERS: [&[i64]; 8] = [
    &[0, 1, 4],
    &[1099511627776, -1099511627776, 1099511627776],
    &[0, 0, 0, 0, -1],
    &[0, 0, 0, 0, 1],
    &[0, 1, 4, 9, 16, 25],
    &[0, 0, 0, 0, -1, 1099511627776],
    &[0, 0, 0, 0, 0, 1099511627777],
    &[3, -1, 4, -1, 5, -9, 2],
];
// An entry, how many noughts it is lent, and the length of its buffer.
const SIZES: [(Entry, usize, usize); 17] = [
    (Entry::Phases, 0, 0),
    (Entry::Phases, 0, 1),
    (Entry::Phases, 32767, 32767),
    (Entry::Phases, 32767, 32768),
    (Entry::Phases, 32768, 0),
    (Entry::Phases, 32768, 32769),
    (Entry::Differences, 0, 0),
    (Entry::Differences, 1, 0),
    (Entry::Differences, 2, 0),
    (Entry::Differences, 32768, 32766),
    (Entry::Differences, 32768, 32767),
    (Entry::Differences, 32769, 0),
    (Entry::Removal, 2, 0),
    (Entry::Removal, 3, 2),
    (Entry::Removal, 3, 3),
    (Entry::Removal, 32768, 32768),
    (Entry::Removal, 32769, 0),
];

impl Entry {
    // The entry at work.
    fn fill(self, values: &[i64], buffer: &mut [i64]) -> Told<Written> {
        Told(self.count(values, buffer).map(Written))
    }

    // How many values the entry writes.
    fn count(self, values: &[i64], buffer: &mut [i64]) -> Result<u64, Refused> {
        match self {
            Entry::Phases => frequency::phases(0, values, buffer),
            Entry::Differences => frequency::differences(values, buffer),
            Entry::Removal => drift::removed(values, buffer),
        }
    }
}

impl fmt::Display for Entry {
    fn fmt<W: fmt::Write>(&self, f: &mut fmt::Formatter<W>) -> fmt::Result {
        f.write_str(match self {
            Entry::Phases => "phases of",
            Entry::Differences => "differences of",
            Entry::Removal => "without drift",
        })
    }
}

impl fmt::Display for Written {
    fn fmt<W: fmt::Write>(&self, f: &mut fmt::Formatter<W>) -> fmt::Result {
        write!(f, "{} written", self.0)
    }
}

impl fmt::Display for Shown {
    fn fmt<W: fmt::Write>(&self, f: &mut fmt::Formatter<W>) -> fmt::Result {
        write!(f, "P {}, R {}", self.0.p, self.0.r)
    }
}

// All lines.
pub(crate) fn figures(out: Output) -> io::Result<()> {
    for row in ROWS {
        filled(out, Entry::Phases, &row)?;
        filled(out, Entry::Differences, &row)?;
        drift_lines(out, &row)?;
    }
    for samples in OTHERS {
        drift_lines(out, samples)?;
    }
    sizes(out, &[0; 32769])?;
    let mut samples = [0i64; 32768];
    for (name, rule) in records::RULES {
        records::fill(&mut samples, rule);
        long_lines(out, name, &samples)?;
    }
    Ok(())
}

// One record without its drift, and its drift.
fn drift_lines(out: Output, samples: &[i64]) -> io::Result<()> {
    filled(out, Entry::Removal, samples)?;
    println!(out; "drift of{}: {}", Values(samples), drift_of(samples))
}

// One line: what an entry answers, and the buffer as it is left.
fn filled(out: Output, entry: Entry, row: &[i64]) -> io::Result<()> {
    let mut buffer = [7i64; 6];
    let told = entry.fill(row, &mut buffer);
    println!(out; "{entry}{}: {told}; buffer{}", Values(row), Values(&buffer))
}

// P and R, or the refusal.
fn drift_of(samples: &[i64]) -> Told<Shown> {
    Told(drift::figure(samples).map(Shown))
}

// A line for each size: an entry on noughts, with a buffer of some length.
fn sizes(out: Output, noughts: &[i64]) -> io::Result<()> {
    let mut buffer = [7i64; 32769];
    for (entry, length, room) in SIZES {
        if let (Some(values), Some(lent)) = (noughts.get(..length), buffer.get_mut(..room)) {
            let told = entry.fill(values, lent);
            println!(out; "{entry} {length} noughts, buffer of {room}: {told}")?;
        }
    }
    Ok(())
}

// Each entry on a long record, the first of its values taken as readings, and the way back from its differences.
fn long_lines(out: Output, name: &str, samples: &[i64; 32768]) -> io::Result<()> {
    phases(out, "", name, samples)?;
    long(out, "", Entry::Differences, name, samples)?;
    long(out, "", Entry::Removal, name, samples)?;
    println!(out; "drift of {name}: {}", drift_of(samples))?;
    let mut readings = [7i64; 32768];
    let _ = Entry::Differences.count(samples, &mut readings);
    phases(out, "back from differences, ", name, &readings)
}

// The phases of the first values.
fn phases(out: Output, before: &str, name: &str, values: &[i64; 32768]) -> io::Result<()> {
    long(out, before, Entry::Phases, name, &values[..32767])
}

// One line: what an entry answers, and the Allan sum at factor 7 of the buffer as it is left.
fn long(out: Output, before: &str, entry: Entry, name: &str, values: &[i64]) -> io::Result<()> {
    let mut buffer = [7i64; 32768];
    let told = entry.fill(values, &mut buffer);
    println!(out;
        "{before}{entry} {name}: {told}; Allan sum of the buffer {}",
        left(&buffer)
    )
}

// The Allan sum at factor 7 of a buffer, or its refusal.
fn left(buffer: &[i64]) -> Told<Sum> {
    Told(sums::allan(buffer, 7).map(Sum))
}
