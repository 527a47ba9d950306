// The squares of 128 windows, from what the window gains at each place: few enough that the sum of the raised windows stays within a word.
ghost use Rattle.std.specs.Prelude.{◌≡◌, ℕ, ◌+◌, ◌*◌, ◌^◌, ◌≤◌, ◌<◌, nat_abs, ◌+ℤ◌};
ghost use Rattle.laws.specs.Sums.{sum, sum_ℤ, square};
ghost use Rattle.laws.specs.Lists.{at};
ghost use Rattle.laws.proofs.Parts.{plus, minus};
ghost use Rattle.wide.specs.Wide.{halves, wide_sum};

use crate::squares;
use wide::Wide;

// How many windows a block has.
pub(crate) const BLOCK: usize = 128;
// What raises a window, for each second difference in it: 2^42.
const RISE: u64 = 4398046511104;

// The last window of a block, and the sum of the squares of all.
#[derive(Clone, Copy)]
pub(crate) struct Block {
    pub window: i64,
    pub squares: Wide,
}

// The 128 windows after one, each raised by m * 2^42 so that none is below nought.
pub(crate) fn windows(gains: &[i64; BLOCK], m: u64, window: i64) -> Block
    requires { (m ≤ 10922) × ((k : ℕ) → k ≤ 128 → nat_abs (window +ℤ sum_ℤ k (at gains.now)) ≤ m * 2 ^ 42) }
    ensures { (result.window ≡ window +ℤ sum_ℤ 128 (at gains.now)) × (result.squares ≡ halves (sum 128 (λ k. square (window +ℤ sum_ℤ (k + 1) (at gains.now))))) }
{
    let rise = m * RISE;
    let mut high = moved_by(rise, window);
    let mut total = Wide { hi: 0, lo: 0 };
    let mut raised: u64 = 0;
    for gain in gains {
        high = moved_by(high, *gain);
        total = with_square(total, high);
        raised += high;
    }
    Block {
        window: high as i64 - rise as i64,
        squares: squares::lowered(total, raised, m, BLOCK as u64),
    }
}

// A raised number moved by a signed one, which takes it nowhere below nought.
fn moved_by(high: u64, gain: i64) -> u64
    requires { (high + nat_abs gain < 2 ^ 63) × (minus gain ≤ high) }
    ensures { result + minus gain ≡ high + plus gain }
{
    (high as i64 + gain) as u64
}

// A sum with the square of a word more, modulo 2^128.
fn with_square(total: Wide, u: u64) -> Wide
    ensures { result ≡ wide_sum total (halves (u * u)) }
{
    wide::sum(total, wide::product(u, u))
}
