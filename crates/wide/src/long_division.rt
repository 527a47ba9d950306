// Division of two words by one, a digit of 32 bits at a time: each is guessed from the high parts of both numbers, and the guess is two too large at
// most. No step divides more than a word, so that none calls a function of C's library.
ghost use Rattle.std.specs.Prelude.{◌≡◌, ◌+◌, ◌-◌, ◌*◌, ◌/◌, ◌%◌, ◌^◌, ◌<◌, ◌≤◌, max};

use crate::Wide;

// A digit of the quotient, or its low word, and the remainder.
#[derive(Clone, Copy)]
pub(crate) struct Step {
    pub quotient: u64,
    pub remainder: u64,
}

// Quotient and remainder of rest * 2^64 + lo by d. Where nothing is left of the high word the machine divides the low one. Else both numbers are scaled so
// that the divisor has its top bit, and the remainder comes out scaled alike.
pub(crate) fn low_word(rest: u64, lo: u64, d: u64) -> Step
    requires { rest < d }
    ensures { (result.quotient ≡ (rest * 2 ^ 64 + lo) / d) × (result.remainder ≡ (rest * 2 ^ 64 + lo) % d) }
{
    if rest == 0 {
        return Step {
            quotient: lo / d,
            remainder: lo % d,
        };
    }
    let shift = 63 - d.ilog2();
    let scaled = two_digits(u128::from(Wide { hi: rest, lo }) << shift, d << shift);
    Step {
        quotient: scaled.quotient,
        remainder: scaled.remainder >> shift,
    }
}

// Quotient and remainder of n by d, which has its top bit. The quotient is one word.
fn two_digits(n: u128, d: u64) -> Step
    requires { (2 ^ 63 ≤ d) × (n < d * 2 ^ 64) }
    ensures { (result.quotient ≡ n / d) × (result.remainder ≡ n % d) }
{
    let first = one_digit(n >> 32, d);
    let second = one_digit(first.remainder as u128 * DIGIT + n % DIGIT, d);
    Step {
        quotient: first.quotient * DIGIT as u64 + second.quotient,
        remainder: second.remainder,
    }
}

// Quotient and remainder of n by d, which has its top bit. The quotient is one digit.
fn one_digit(n: u128, d: u64) -> Step
    requires { (2 ^ 63 ≤ d) × (n < d * 2 ^ 32) }
    ensures { (result.quotient ≡ n / d) × (result.remainder ≡ n % d) }
{
    let guess = (n >> 32) as u64 / (d >> 32);
    let quotient = nearer(nearer(guess, n, d), n, d);
    Step {
        quotient,
        remainder: (n - quotient as u128 * d as u128) as u64,
    }
}

// A guess at n / d, one less where it is too large.
fn nearer(guess: u64, n: u128, d: u64) -> u64
    requires { (0 < d) × (n / d ≤ guess) }
    ensures { (n / d ≤ result) × (result ≤ max (n / d) (guess - 1)) }
{
    if n < guess as u128 * d as u128 {
        guess - 1
    } else {
        guess
    }
}

// What a digit counts in.
const DIGIT: u128 = 1 << 32;
