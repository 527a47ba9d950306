// Float readings: what they become, how many are changed, what some are refused for, and what is left in the buffer.
use crate::print::Told;
use readings::Sums;
use shown::{OnePart, Output, Values};
use std::{fmt, io};

// Three readings, in words and as they are.
const THREES: [(&str, [f64; 3]); 29] = [
    // Whole readings, at the ends of the range and beyond.
    ("3, -1, 4", [3.0, -1.0, 4.0]),
    ("2^40, 0, 0", [1099511627776.0, 0.0, 0.0]),
    ("0, -2^40, 0", [0.0, -1099511627776.0, 0.0]),
    ("0, 0, 2^40 + 1", [0.0, 0.0, 1099511627777.0]),
    ("0, -2^40 - 1, 0", [0.0, -1099511627777.0, 0.0]),
    ("0, -0, 0", [0.0, -0.0, 0.0]),
    // Halves, to the even number.
    ("0.5, 0, 0", [0.5, 0.0, 0.0]),
    ("0, -0.5, 0", [0.0, -0.5, 0.0]),
    ("1.5, 0, 0", [1.5, 0.0, 0.0]),
    ("0, -2.5, 0", [0.0, -2.5, 0.0]),
    ("0, 0, 0.49999999999999994", [0.0, 0.0, 0.49999999999999994]),
    ("0.5, 1.5, -2.5", [0.5, 1.5, -2.5]),
    // Fractions next to the ends of the range, on either side.
    ("2^40 - 0.5, 0, 0", [1099511627775.5, 0.0, 0.0]),
    ("0, -2^40 + 0.5, 0", [0.0, -1099511627775.5, 0.0]),
    ("2^40 + 0.5, 0, 0", [1099511627776.5, 0.0, 0.0]),
    ("0, -2^40 - 0.5, 0", [0.0, -1099511627776.5, 0.0]),
    ("0, 0, 2^40 + 2^-12", [0.0, 0.0, 1099511627776.000244140625]),
    (
        "0, 0, 2^40 - 2^-13",
        [0.0, 0.0, 1099511627775.9998779296875],
    ),
    // Readings that are infinite or not a number, and those of the least and the largest size.
    ("0, infinite, 0", [0.0, f64::INFINITY, 0.0]),
    ("-infinite, 0, 0", [f64::NEG_INFINITY, 0.0, 0.0]),
    ("0, 0, not a number", [0.0, 0.0, f64::NAN]),
    ("0, 2^-1074, 0", [0.0, 5e-324, 0.0]),
    ("0, -2^-1074, 0", [0.0, -5e-324, 0.0]),
    ("2^1024 - 2^971, 0, 0", [1.7976931348623157e308, 0.0, 0.0]),
    // The lowest index decides, whichever its number.
    (
        "0, not a number, 2^40 + 1",
        [0.0, f64::NAN, 1099511627777.0],
    ),
    (
        "0, 2^40 + 1, not a number",
        [0.0, 1099511627777.0, f64::NAN],
    ),
    ("0.5, not a number, 0", [0.5, f64::NAN, 0.0]),
    (
        "infinite, not a number, 0.5",
        [f64::INFINITY, f64::NAN, 0.5],
    ),
    ("not a number, infinite, 0", [f64::NAN, f64::INFINITY, 0.0]),
];
// Whole readings, for records of any length up to theirs.
const SQUARES: [f64; 9] = [0.0, 1.0, 4.0, 9.0, 16.0, 25.0, 36.0, 49.0, 64.0];
// Factors, numbers of readings and lengths of buffers.
const SIZES: [(u64, usize, usize); 14] = [
    (0, 9, 9),
    (10923, 9, 9),
    (10922, 9, 9),
    (1, 2, 9),
    (1, 3, 9),
    (2, 4, 9),
    (2, 5, 9),
    (2, 6, 9),
    (3, 7, 9),
    (3, 8, 9),
    (3, 9, 9),
    (3, 9, 8),
    (1, 2, 0),
    (0, 9, 0),
];

// The two sums and how many readings were changed.
#[derive(Clone, Copy)]
struct Shown(Sums);

impl fmt::Display for Shown {
    fn fmt<W: fmt::Write>(&self, f: &mut fmt::Formatter<W>) -> fmt::Result {
        let sums = self.0;
        write!(
            f,
            "Allan{}, modified{}, changed {}",
            OnePart(Ok(sums.allan)),
            OnePart::from(sums.modified),
            sums.changed
        )
    }
}

// All lines.
pub(crate) fn figures(out: Output) -> io::Result<()> {
    for (words, readings) in THREES {
        three(out, words, readings)?;
    }
    for (m, count, room) in SIZES {
        size(out, m, count, room)?;
    }
    too_many(out)
}

// One line: three readings in words, their sums at m = 1, and the buffer, whose fourth entry is past the output.
fn three(out: Output, words: &str, readings: [f64; 3]) -> io::Result<()> {
    let mut buffer = [7i64; 4];
    let shown = Told(readings::sums_of(&readings, 1, &mut buffer).map(Shown));
    println!(out;
        "float readings {words} at m = 1: {shown}; buffer{}",
        Values(&buffer)
    )
}

// One line: the first squares at a factor, with a buffer of some length.
fn size(out: Output, m: u64, count: usize, room: usize) -> io::Result<()> {
    let mut buffer = [7i64; 9];
    if let (Some(squares), Some(lent)) = (SQUARES.get(..count), buffer.get_mut(..room)) {
        let shown = Told(readings::sums_of(squares, m, lent).map(Shown));
        println!(out; "float readings, {count} squares, buffer of {room}, m = {m}: {shown}")?;
    }
    Ok(())
}

// A record of 32,768 readings is taken, and one of 32,769 is not.
fn too_many(out: Output) -> io::Result<()> {
    let noughts = [0.0f64; 32769];
    let mut buffer = [7i64; 32769];
    let shown = Told(readings::sums_of(&noughts, 1, &mut buffer).map(Shown));
    println!(out; "float readings, 32769 noughts, m = 1: {shown}")?;
    let shown = Told(readings::sums_of(&noughts[..32768], 10922, &mut buffer).map(Shown));
    println!(out; "float readings, 32768 noughts, m = 10922: {shown}")
}
