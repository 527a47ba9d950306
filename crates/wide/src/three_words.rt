// Products of a wide number and a word, which take three words, and their order.
ghost use Rattle.std.specs.Prelude.{◌≡◌, ◌+◌, ◌*◌, ◌^◌, nat_le};
ghost use Rattle.wide.specs.Wide.{value};

use crate::Wide;

// top * 2^128 + middle * 2^64 + low. The derived order is that of the numbers.
#[derive(Clone, Copy, PartialEq, Eq, PartialOrd, Ord)]
pub(crate) struct ThreeWords {
    pub top: u64,
    pub middle: u64,
    pub low: u64,
}

// The product of a wide number and a word.
pub(crate) fn times(a: Wide, y: u64) -> ThreeWords
    ensures { (result.top * 2 ^ 64 + result.middle) * 2 ^ 64 + result.low ≡ value a * y }
{
    let low = crate::product(a.lo, y);
    let upper = crate::sum(crate::product(a.hi, y), Wide::from(low.hi));
    ThreeWords {
        top: upper.hi,
        middle: upper.lo,
        low: low.lo,
    }
}

// Whether a is not above b.
pub(crate) fn at_most(a: ThreeWords, b: ThreeWords) -> bool
    ensures { result ≡ nat_le ((a.top * 2 ^ 64 + a.middle) * 2 ^ 64 + a.low) ((b.top * 2 ^ 64 + b.middle) * 2 ^ 64 + b.low) }
{
    a <= b
}
