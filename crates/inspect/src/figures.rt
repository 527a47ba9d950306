// How a line shows what it has: counts, sums, deviations, and a refusal where there is no figure.
use record::{Ground, Refused};
use std::fmt;

// So many units of a deviation are a picosecond: 2^20.
const UNITS: u64 = 1048576;

// How many values a file has.
#[derive(Clone, Copy)]
pub(crate) struct Count(pub(crate) u64);

// A sum of squares, what its deviation is called, and the deviation in units of 2^-20 ps.
#[derive(Clone, Copy)]
pub(crate) struct Sum {
    pub(crate) sum: sums::Sum,
    pub(crate) name: &'static str,
    pub(crate) root: Result<u64, Refused>,
}

// A deviation in units of 2^-20 ps.
#[derive(Clone, Copy)]
struct Deviation(u64);

// A ground by its number and in words.
#[derive(Clone, Copy)]
struct Why(Ground);

// A refusal. The place is shown where it means something: a byte of a file or the index of a value.
#[derive(Clone, Copy)]
pub(crate) struct Refusal(pub(crate) Refused);

// A sum, or the refusal that stands for it.
#[derive(Clone, Copy)]
pub(crate) struct Told(pub(crate) Result<Sum, Refused>);

impl fmt::Display for Count {
    fn fmt<W: fmt::Write>(&self, f: &mut fmt::Formatter<W>) -> fmt::Result {
        match self.0 {
            1 => f.write_str("1 value"),
            count => write!(f, "{count} values"),
        }
    }
}

// The place of a deviation's refusal means nothing.
impl fmt::Display for Sum {
    fn fmt<W: fmt::Write>(&self, f: &mut fmt::Formatter<W>) -> fmt::Result {
        let total = u128::from(self.sum.total);
        write!(f, "sum {total} of {}, {} ", self.sum.count, self.name)?;
        match self.root {
            Ok(units) => write!(f, "{}", Deviation(units)),
            Err(refused) => write!(f, "{}", Why(refused.why)),
        }
    }
}

// The picoseconds are cut off after six decimals.
impl fmt::Display for Deviation {
    fn fmt<W: fmt::Write>(&self, f: &mut fmt::Formatter<W>) -> fmt::Result {
        let units = self.0;
        write!(
            f,
            "{units} ({}.{:06} ps)",
            units / UNITS,
            units % UNITS * 1000000 / UNITS
        )
    }
}

impl fmt::Display for Why {
    fn fmt<W: fmt::Write>(&self, f: &mut fmt::Formatter<W>) -> fmt::Result {
        write!(f, "refused {}, {}", u64::from(self.0), self.0)
    }
}

impl fmt::Display for Refusal {
    fn fmt<W: fmt::Write>(&self, f: &mut fmt::Formatter<W>) -> fmt::Result {
        let Refused { why, place } = self.0;
        write!(f, "{}", Why(why))?;
        match why {
            Ground::BadFile => write!(f, ", at byte {place}"),
            Ground::OutOfRange | Ground::NotANumber => write!(f, ", at index {place}"),
            _ => Ok(()),
        }
    }
}

impl fmt::Display for Told {
    fn fmt<W: fmt::Write>(&self, f: &mut fmt::Formatter<W>) -> fmt::Result {
        match self.0 {
            Ok(sum) => write!(f, "{sum}"),
            Err(refused) => write!(f, "{}", Refusal(refused)),
        }
    }
}
