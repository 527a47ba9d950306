// The quieter of two records, handed back as the record itself, or the empty part and why.
use record::LARGEST_SAMPLE;
use shown::{Output, Refusal, Values};
use std::io;

// A factor and two records.
const PAIRS: [(u64, &[i64], &[i64]); 6] = [
    (1, &[0, 1, 0, 1, 0], &[0, 1, 0, 1, 0, 1, 0]),
    (1, &[0, 0, 0, 1, 0, 0, 0], &[0, 0, 1, 0]),
    (2, &[0, 1, 4, 9, 16, 25], &[0, 0, 0, 1, 0, 0, 0]),
    (
        1,
        &[LARGEST_SAMPLE, -LARGEST_SAMPLE, LARGEST_SAMPLE],
        &[0, 0, LARGEST_SAMPLE + 1],
    ),
    (1, &[0, 1], &[-LARGEST_SAMPLE - 1, 0, 0]),
    (0, &[0, 1], &[0, 0, LARGEST_SAMPLE + 1]),
];

// Two lines for each pair, in which each record is first once.
pub(crate) fn figures(out: Output) -> io::Result<()> {
    for (m, one, two) in PAIRS {
        line(out, m, one, two)?;
        line(out, m, two, one)?;
    }
    Ok(())
}

// One line: the records, the factor, the one that is handed back, and which it is or the refusal.
fn line(out: Output, m: u64, first: &[i64], second: &[i64]) -> io::Result<()> {
    let one = Values(first);
    let two = Values(second);
    let quieter = Values(compare::quieter(first, second, m));
    match compare::compared(first, second, m) {
        Ok(choice) => println!(out;
            "quieter of{one} and{two} at {m}:{quieter}, {}",
            u64::from(choice)
        ),
        Err(refused) => println!(out;
            "quieter of{one} and{two} at {m}:{quieter} {}",
            Refusal(refused)
        ),
    }
}
