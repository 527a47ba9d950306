// Streams fed to the running meter, sample by sample, beside the sums of the whole record.
use crate::records;
use crate::records::Rule;
use meter::{Meter, Sums};
use record::Refused;
use shown::{OnePart, Output, Refusal};
use std::io;

// The records.
const RECORDS: [(&str, Rule); 3] = [
    ("ends", Rule::Ends),
    ("blocks", Rule::Blocks),
    ("scattered", Rule::Scattered),
];
// Factors and lengths: before a sum is due, as it becomes due, and long after.
const SIZES: [(u64, usize); 8] = [
    (1, 2),
    (1, 3),
    (2, 5),
    (2, 6),
    (7, 100),
    (500, 1501),
    (500, 32768),
    (10922, 32768),
];

// The lines of each record at each size.
pub(crate) fn figures(out: Output) -> io::Result<()> {
    let mut samples = [0i64; 32768];
    for (name, rule) in RECORDS {
        records::fill(&mut samples, rule);
        sizes(out, name, &samples)?;
    }
    Ok(())
}

// The lines of one record at each size.
fn sizes(out: Output, name: &str, samples: &[i64]) -> io::Result<()> {
    for (m, length) in SIZES {
        if let Some(first) = samples.get(..length) {
            compare(out, name, first, m)?;
        }
    }
    Ok(())
}

// Two lines, the meter's and the whole record's.
fn compare(out: Output, name: &str, samples: &[i64], m: u64) -> io::Result<()> {
    let length = samples.len();
    match streamed(samples, m) {
        Ok(sums) => println!(out;
            "stream {name} m {m} N {length} meter{}{}",
            OnePart::from(sums.allan),
            OnePart::from(sums.modified)
        )?,
        Err(refused) => println!(out; "stream {name} m {m} N {length} meter {}", Refusal(refused))?,
    }
    let allan = sums::allan(samples, m).map_err(|refused| refused.why);
    let modified = sums::modified(samples, m).map_err(|refused| refused.why);
    println!(out;
        "stream {name} m {m} N {length} record{}{}",
        OnePart(allan),
        OnePart(modified)
    )
}

// The sums of a meter that is fed the samples, on a ring as another meter leaves it.
fn streamed(samples: &[i64], m: u64) -> Result<Sums, Refused> {
    let mut ring = [0i64; 32766];
    fed(Meter::new(m, &ring)?, samples, &mut ring)?;
    fed(Meter::new(m, &ring)?, samples, &mut ring)?.sums()
}

// The meter with all samples, and one out of range before each, which it refuses.
fn fed(meter: Meter, samples: &[i64], ring: &mut [i64; 32766]) -> Result<Meter, Refused> {
    let mut now = meter;
    for x in samples {
        now = with_refused(now, ring, *x)?;
    }
    Ok(now)
}

// The meter after a sample out of range and one in it.
fn with_refused(meter: Meter, ring: &mut [i64; 32766], x: i64) -> Result<Meter, Refused> {
    let same = meter.with_sample(ring, 1099511627777).unwrap_or(meter);
    same.with_sample(ring, x)
}
