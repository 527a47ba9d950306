// Numbers in two halves, at the ends of what they hold.
use shown::Output;
use std::{fmt, io};
use wide::{Division, Wide};

// The largest word.
const MOST: u64 = 18446744073709551615;
// 2^126 - 1.
const BELOW: Wide = Wide {
    hi: 4611686018427387903,
    lo: MOST,
};
// 2^126.
const LIMIT: Wide = Wide {
    hi: 4611686018427387904,
    lo: 0,
};
// 2^128 - 1.
const END: Wide = Wide { hi: MOST, lo: MOST };

// The halves of a wide number in words.
#[derive(Clone, Copy)]
struct Named(Wide);

// A quotient and a remainder, or that there is none.
#[derive(Clone, Copy)]
struct Divided(Option<Division>);

impl fmt::Display for Named {
    fn fmt<W: fmt::Write>(&self, f: &mut fmt::Formatter<W>) -> fmt::Result {
        write!(f, "high {}, low {}", self.0.hi, self.0.lo)
    }
}

impl fmt::Display for Divided {
    fn fmt<W: fmt::Write>(&self, f: &mut fmt::Formatter<W>) -> fmt::Result {
        match self.0 {
            Some(division) => write!(
                f,
                "remainder {}, quotient: {}",
                division.remainder,
                Named(division.quotient)
            ),
            None => f.write_str("not defined"),
        }
    }
}

// All lines.
pub(crate) fn figures(out: Output) -> io::Result<()> {
    products_and_sums(out)?;
    quotients(out)?;
    roots(out)?;
    orders(out)
}

// Products and sums that pass one half, and the sum that passes both.
fn products_and_sums(out: Output) -> io::Result<()> {
    println!(out; "(2^64 - 1) squared: {}", Named(wide::product(MOST, MOST)))?;
    println!(out;
        "2^41 squared: {}",
        Named(wide::product(2199023255552, 2199023255552))
    )?;
    println!(out; "2^64 - 1 and 1: {}", Named(wide::sum(low(MOST), low(1))))?;
    println!(out; "2^128 - 1 and 1: {}", Named(wide::sum(END, low(1))))
}

// Quotients, and the one that is not defined.
fn quotients(out: Output) -> io::Result<()> {
    println!(out; "2^126 by 7: {}", Divided(wide::divided(LIMIT, 7)))?;
    println!(out;
        "2^128 - 1 by 2^64 - 1: {}",
        Divided(wide::divided(END, MOST))
    )?;
    println!(out; "5 by 0: {}", Divided(wide::divided(low(5), 0)))
}

// Roots at the limit of a sum and at the end of both halves.
fn roots(out: Output) -> io::Result<()> {
    println!(out; "root of 2^126 - 1: {}", wide::root(BELOW))?;
    println!(out; "root of 2^126: {}", wide::root(LIMIT))?;
    println!(out; "root of 2^128 - 1: {}", wide::root(END))
}

// The rules' deviation passes its test, and one more does not.
fn orders(out: Output) -> io::Result<()> {
    for r in [1482910, 1482911] {
        let order = if wide::square_at_most(r, 8, low(16)) {
            "not above"
        } else {
            "above"
        };
        println!(out; "{r} squared times 8, 16 times 2^40: {order}")?;
    }
    Ok(())
}

// A word as a wide number.
fn low(lo: u64) -> Wide {
    Wide::from(lo)
}
