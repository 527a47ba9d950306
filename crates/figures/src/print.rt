// How a line of these figures shows a double, a fraction, and what stands for a figure that there is not.
use record::Refused;
use shown::{Halves, Refusal};
use std::fmt;
use variances::fractions;

// A double, exactly: its 64 bits in 16 hexadecimal digits. What is not a number has many patterns, and is called so.
#[derive(Clone, Copy)]
pub(crate) struct Double(pub(crate) f64);

// A numerator in halves, and its denominator.
#[derive(Clone, Copy)]
pub(crate) struct Fraction(pub(crate) fractions::Fraction);

// A figure, or the refusal that stands for it.
#[derive(Drop)]
pub(crate) struct Told<T>(pub(crate) Result<T, Refused>);

impl fmt::Display for Double {
    fn fmt<W: fmt::Write>(&self, f: &mut fmt::Formatter<W>) -> fmt::Result {
        if self.0.is_nan() {
            f.write_str("not a number")
        } else {
            write!(f, "{:016x}", self.0.to_bits())
        }
    }
}

impl fmt::Display for Fraction {
    fn fmt<W: fmt::Write>(&self, f: &mut fmt::Formatter<W>) -> fmt::Result {
        write!(f, "{}/{}", Halves(self.0.numerator), self.0.denominator)
    }
}

impl<T: fmt::Display> fmt::Display for Told<T> {
    fn fmt<W: fmt::Write>(&self, f: &mut fmt::Formatter<W>) -> fmt::Result {
        match &self.0 {
            Ok(figure) => write!(f, "{figure}"),
            Err(refused) => write!(f, "{}", Refusal(*refused)),
        }
    }
}
