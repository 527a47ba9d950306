// How the programs of figures show what the library answers: numbers after spaces, halves, sums with their counts, and refusals; where they print it;
// and the numbers of their scattered records.

#![tactic(auto)]

ghost use Rattle.std.specs.Prelude.{◌≡◌, ◌+◌, ◌*◌, ◌%◌, ◌^◌, pos, ◌-ℤ◌, IsOk};

use record::{Ground, Refused};
use std::io::Stdout;
use std::{fmt, io};
use wide::Wide;

// Signed numbers, each after a space.
#[derive(Clone, Copy)]
pub struct Values<'a>(pub &'a [i64]);

// The halves of a wide number.
#[derive(Clone, Copy)]
pub struct Halves(pub Wide);

// A sum in halves, and its count.
#[derive(Clone, Copy)]
pub struct Sum(pub sums::Sum);

// A part of an answer, after a space: a sum with its count, or the number of the ground for which there is none.
#[derive(Clone, Copy)]
pub struct OnePart(pub Result<sums::Sum, Ground>);

// A refusal: its number, then its place.
#[derive(Clone, Copy)]
pub struct Refusal(pub Refused);

// The standard output. A write that fails is not told, and the next is tried.
#[derive(Clone, Copy, Debug)]
pub struct Output(pub Stdout);

impl Print for Output {
    fn print<D: fmt::Display + Drop>(&self, value: D) -> io::Result<()>
        ensures ok { IsOk result }
    {
        let _ = self.0.print(value);
        Ok(())
    }

    fn println<D: fmt::Display + Drop>(&self, value: D) -> io::Result<()>
        ensures ok { IsOk result }
    {
        let _ = self.0.println(value);
        Ok(())
    }

    fn write_all(&self, bytes: &[u8]) -> io::Result<()>
        ensures ok { IsOk result }
    {
        let _ = self.0.write_all(bytes);
        Ok(())
    }
}

// A sum that there is not is not due.
impl From<Option<sums::Sum>> for OnePart {
    fn from(sum: Option<sums::Sum>) -> OnePart {
        OnePart(sum.ok_or(Ground::TooFew))
    }
}

impl fmt::Display for Values<'_> {
    fn fmt<W: fmt::Write>(&self, f: &mut fmt::Formatter<W>) -> fmt::Result {
        for n in self.0 {
            write!(f, " {n}")?;
        }
        Ok(())
    }
}

impl fmt::Display for Halves {
    fn fmt<W: fmt::Write>(&self, f: &mut fmt::Formatter<W>) -> fmt::Result {
        write!(f, "{}:{}", self.0.hi, self.0.lo)
    }
}

impl fmt::Display for Sum {
    fn fmt<W: fmt::Write>(&self, f: &mut fmt::Formatter<W>) -> fmt::Result {
        write!(f, "{} of {}", Halves(self.0.total), self.0.count)
    }
}

impl fmt::Display for OnePart {
    fn fmt<W: fmt::Write>(&self, f: &mut fmt::Formatter<W>) -> fmt::Result {
        match self.0 {
            Ok(sum) => write!(f, " {}", Sum(sum)),
            Err(why) => write!(f, " refused {}", u64::from(why)),
        }
    }
}

impl fmt::Display for Refusal {
    fn fmt<W: fmt::Write>(&self, f: &mut fmt::Formatter<W>) -> fmt::Result {
        write!(f, "refused {} at {}", u64::from(self.0.why), self.0.place)
    }
}

// The next state of a scattered record: a linear congruence modulo 2^64, whose top 41 bits scatter over the whole range of samples.
pub fn next(state: u64) -> u64
    ensures { result ≡ (state * 6364136223846793005 % 2 ^ 64 + 1442695040888963407) % 2 ^ 64 }
{
    wide::product_low(state, 6364136223846793005).wrapping_add(1442695040888963407)
}

// A number of 41 bits, less 2^40.
pub fn centred(n: u64) -> i64
    ensures { result ≡ pos (n % 2 ^ 41) -ℤ pos (2 ^ 40) }
{
    (n % 2199023255552) as i64 - 1099511627776
}
