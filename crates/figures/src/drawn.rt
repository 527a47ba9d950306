// Drawn numbers, at the ends of what is drawn and where a double begins to leave digits out.
use crate::print::{Double, Told};
use plot::drawn;
use shown::Output;
use std::io;

// Deviations in units of 2^-20.
const ROWS: [u64; 27] = [
    0,
    1,
    2,
    3,
    1048575,
    1048576,
    1048577,
    1482910,
    9007199254740991,
    9007199254740992,
    9007199254740993,
    9007199254740994,
    9007199254740995,
    18014398509481983,
    18014398509481986,
    18014398509481987,
    4611686018427387903,
    4611686018427387904,
    4611686018427387905,
    4611686018427388927,
    4611686018427388928,
    9223372036854774783,
    9223372036854774784,
    9223372036854775807,
    9223372036854775808,
    9223372036854775809,
    18446744073709551615,
];

// A line for each: the double of r, or its refusal.
pub(crate) fn figures(out: Output) -> io::Result<()> {
    for r in ROWS {
        let told = Told(drawn::number(r).map(Double));
        println!(out; "drawn number of {r}: {told}")?;
    }
    Ok(())
}
