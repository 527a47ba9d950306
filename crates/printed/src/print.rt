// How a line shows decimal fractions, and whether two figures agree.
use std::fmt;

// A number of which so many last digits stand behind the point.
#[derive(Clone, Copy)]
pub(crate) struct Decimals<const PLACES: u32>(pub(crate) u64);

// Whether the library's figure is the printed one.
#[derive(Clone, Copy)]
pub(crate) enum Verdict {
    Agrees,
    Differs,
}

impl Verdict {
    // The verdict on two figures.
    pub(crate) fn of(ours: u64, printed: u64) -> Verdict {
        if ours == printed {
            Verdict::Agrees
        } else {
            Verdict::Differs
        }
    }
}

impl<const PLACES: u32> fmt::Display for Decimals<PLACES> {
    fn fmt<W: fmt::Write>(&self, f: &mut fmt::Formatter<W>) -> fmt::Result {
        let places = PLACES as usize;
        let one = 10u64.saturating_pow(PLACES);
        write!(f, "{}.{:0places$}", self.0 / one, self.0 % one)
    }
}

impl fmt::Display for Verdict {
    fn fmt<W: fmt::Write>(&self, f: &mut fmt::Formatter<W>) -> fmt::Result {
        f.write_str(match self {
            Verdict::Agrees => "agrees",
            Verdict::Differs => "differs",
        })
    }
}
