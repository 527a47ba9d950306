// What a record file holds, as one line to standard output. Every figure is the library's.
use crate::figures::{Count, Refusal, Sum, Told};
use crate::line::Line;
use crate::trouble;
use phr::{Contents, Kind};
use record::Refused;
use std::fmt;
use std::fmt::Write;
use variances::deviations;

// The most values of a file.
const MOST: usize = 32768;
// The factor of the Allan figures.
const SHORT: u64 = 1;
// The factor of the modified figures. At factor 1 they are the Allan ones, so that 2 is the least that tells more.
const LONG: u64 = 2;

// The line of a file.
pub(crate) fn show(rt: &HostRuntime, path: &[u8], bytes: &[u8]) {
    let mut line = Line::begun(b"", path);
    line.put(b": ");
    let _ = contents(&mut line, bytes);
    line.put(b"\n");
    if let Err(error) = rt.stdout().write_all(line.bytes()) {
        trouble::file(rt, b"standard output", "written", error);
    }
}

// What the file says and the figures of its values, or the refusal.
fn contents(line: &mut Line, bytes: &[u8]) -> fmt::Result {
    let mut values = [0i64; MOST];
    match phr::read_either(bytes, &mut values) {
        Ok(said) => held(line, said, front(&values, said.count)),
        Err(refused) => write!(line, "{}", Refusal(refused)),
    }
}

// The front of an array. The count is never beyond it; that is tested, not assumed.
fn front(values: &[i64; MOST], count: u64) -> &[i64] {
    values.get(..count as usize).unwrap_or(&[])
}

// The version, the kind, the count and the figures of a file that says this and has these values.
fn held(line: &mut Line, said: Contents, values: &[i64]) -> fmt::Result {
    let version = said.version;
    let start = said.start;
    let count = Count(said.count);
    match (said.kind, version) {
        (Kind::Phase, _) => {
            write!(line, "version {version}, phase, {count}")?;
            phase(line, values)
        }
        (Kind::Frequency, 1) => {
            write!(line, "version 1, frequency, {count}")?;
            readings(line, start, values)
        }
        (Kind::Frequency, _) => {
            write!(line, "version {version}, frequency from {start}, {count}")?;
            readings(line, start, values)
        }
    }
}

// The figures of the phases of these readings, from a start on.
fn readings(line: &mut Line, start: i64, readings: &[i64]) -> fmt::Result {
    let mut phases = [0i64; MOST];
    match frequency::phases(start, readings, &mut phases) {
        Ok(count) => phase(line, front(&phases, count)),
        Err(refused) => write!(line, "; phases {}", Refusal(refused)),
    }
}

// The figures of these samples.
fn phase(line: &mut Line, samples: &[i64]) -> fmt::Result {
    write!(line, "; factor 1: Allan {}", Told(allan(samples)))?;
    write!(line, "; factor 2: modified {}", Told(modified(samples)))
}

// The Allan sum and its deviation.
fn allan(samples: &[i64]) -> Result<Sum, Refused> {
    let sum = sums::allan(samples, SHORT)?;
    Ok(Sum {
        sum,
        name: "deviation",
        root: deviations::allan_root(sum, SHORT),
    })
}

// The modified sum and the time deviation.
fn modified(samples: &[i64]) -> Result<Sum, Refused> {
    let sum = sums::modified(samples, LONG)?;
    Ok(Sum {
        sum,
        name: "time deviation",
        root: deviations::time_root(sum, LONG),
    })
}
