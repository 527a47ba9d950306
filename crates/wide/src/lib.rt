// Whole numbers of 128 bits as two halves of 64 bits: what sums of squares, their fractions and their roots are worked in. Ranges and refusals are
// left to the crates above.

#![tactic(auto)]

mod long_division;
mod three_words;

ghost use Rattle.std.specs.Prelude.{◌≡◌, ◌*◌, ◌%◌, ◌^◌, nat_le, unsigned_abs};
ghost use Rattle.laws.specs.Sums.{square};
ghost use Rattle.wide.specs.Wide.{value, halves, wide_sum, wide_difference, division_of, square_root};

// hi * 2^64 + lo. The derived order is that of the numbers.
#[repr(C)]
#[derive(Clone, Copy, PartialEq, Eq, PartialOrd, Ord)]
pub struct Wide {
    pub hi: u64,
    pub lo: u64,
}

// The two halves of a number of one word.
impl From<u64> for Wide {
    ghost from_gives = { λ n w. w ≡ halves n };

    fn from(n: u64) -> Wide {
        Wide { hi: 0, lo: n }
    }
}

// The two halves of a number.
impl From<u128> for Wide {
    ghost from_gives = { λ n w. w ≡ halves n };

    fn from(n: u128) -> Wide {
        Wide {
            hi: (n >> 64) as u64,
            lo: (n % HALF) as u64,
        }
    }
}

// The number that two halves stand for.
impl From<Wide> for u128 {
    ghost from_gives = { λ w n. n ≡ value w };

    fn from(w: Wide) -> u128 {
        w.hi as u128 * HALF + w.lo as u128
    }
}

// The sum, modulo 2^128. Every caller shows that its own stays below the top.
pub fn sum(a: Wide, b: Wide) -> Wide
    ensures { result ≡ wide_sum a b }
{
    Wide::from(u128::from(a).wrapping_add(u128::from(b)))
}

// The difference, modulo 2^128. Every caller shows that its own does not go below nought.
pub fn difference(a: Wide, b: Wide) -> Wide
    ensures { result ≡ wide_difference a b }
{
    Wide::from(u128::from(a).wrapping_sub(u128::from(b)))
}

// Whether a is not above b.
pub fn at_most(a: Wide, b: Wide) -> bool
    ensures { result ≡ nat_le (value a) (value b) }
{
    a <= b
}

// The low half of a product of two words.
pub fn product_low(x: u64, y: u64) -> u64
    ensures { result ≡ x * y % 2 ^ 64 }
{
    x.wrapping_mul(y)
}

// The product of two words.
pub fn product(x: u64, y: u64) -> Wide
    ensures { result ≡ halves (x * y) }
{
    Wide::from(x as u128 * y as u128)
}

// How far a signed number is from nought.
pub fn size(z: i64) -> u64
    ensures { result ≡ unsigned_abs z }
{
    z.unsigned_abs()
}

// A sum with the square of a signed number more, modulo 2^128.
pub fn with_square(total: Wide, z: i64) -> Wide
    ensures { result ≡ wide_sum total (halves (square z)) }
{
    let side = size(z);
    sum(total, product(side, side))
}

// Quotient and remainder.
#[derive(Clone, Copy)]
pub struct Division {
    pub quotient: Wide,
    pub remainder: u64,
}

// Quotient and remainder by a word; none where the divisor is nought.
pub fn divided(a: Wide, d: u64) -> Option<Division>
    ensures { result ≡ division_of (value a) d }
{
    if d == 0 {
        return None;
    }
    let low = long_division::low_word(a.hi % d, a.lo, d);
    Some(Division {
        quotient: Wide {
            hi: a.hi / d,
            lo: low.quotient,
        },
        remainder: low.remainder,
    })
}

// The greatest whole number whose square is not above a.
pub fn root(a: Wide) -> u64
    ensures { result ≡ square_root (value a) }
{
    u128::from(a).isqrt() as u64
}

// Whether r * r * d is not above a * 2^40, in three words.
pub fn square_at_most(r: u64, d: u64, a: Wide) -> bool
    ensures { result ≡ nat_le (r * r * d) (value a * 2 ^ 40) }
{
    three_words::at_most(
        three_words::times(product(r, r), d),
        three_words::times(a, 1099511627776),
    )
}

// What the high half counts in.
const HALF: u128 = 1 << 64;
