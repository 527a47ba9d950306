// One float reading, by its bits: the sign, the exponent's field and the digits below the leading one. But for the test whether it is a number no
// double is worked with, so that the caller's rounding direction and what becomes of subnormals have no say.
ghost use Rattle.std.specs.Prelude.{◌≡◌, Bool, cond, ◌+◌, ◌-◌, ◌*◌, ◌%◌, ◌^◌, ◌≤◌, ◌<◌};
ghost use Rattle.std.specs.Float.{binary64};
ghost use Rattle.std.specs.Float.Ieee.{of_fields};
ghost use Rattle.std.specs.Float.Ieee.Nearest.{closest};
ghost use Rattle.laws.specs.Nearest.{with_sign};
ghost use Rattle.readings.specs.Readings.{reading_number, sample_of, has_fraction};
ghost use Rattle.readings.specs.Told.{number_told};

use record::Ground;

// The weight of the sign.
const SIGN: u64 = 0x8000_0000_0000_0000;
// The weight of the exponent's field, and of the leading digit.
const LEAD: u64 = 0x10_0000_0000_0000;
// The bits of 2^40, the range's end.
const END: u64 = 0x4270_0000_0000_0000;
// The exponent's field of a half; from there on a size is its digits over 2^(1075 - field).
const FIELD_OF_A_HALF: u64 = 1022;
// A half as `rest` tells it, in parts of 2^-64.
const HALF: u64 = 0x8000_0000_0000_0000;

// 3 beyond the range, 4 for what is not a number. Sizes are in the order of their bits.
pub(crate) fn check(x: f64) -> Result<(), Ground>
    ensures { number_told result ≡ reading_number x }
{
    if x.is_nan() {
        return Err(Ground::NotANumber);
    }
    if END < x.to_bits() % SIGN {
        return Err(Ground::OutOfRange);
    }
    Ok(())
}

// The sample that a reading in range becomes.
pub(crate) fn sample_of(x: f64) -> i64
    requires { reading_number x ≡ 0 }
    ensures { result ≡ sample_of x }
{
    let bits = x.to_bits();
    let size = nearest(bits % SIGN / LEAD, bits % LEAD) as i64;
    if bits < SIGN {
        return size;
    }
    -size
}

// What a reading in range adds to the count of those changed: 1 if it has a fraction, else 0.
pub(crate) fn counted(x: f64) -> u64
    requires { reading_number x ≡ 0 }
    ensures { result ≡ cond (has_fraction x) 1 0 }
{
    let bits = x.to_bits();
    u64::from(has_fraction(bits % SIGN / LEAD, bits % LEAD))
}

// The nearest whole number to a size in range.
fn nearest(field: u64, digits: u64) -> u64
    requires { (field * 2 ^ 52 + digits ≤ 1063 * 2 ^ 52) × (digits < 2 ^ 52) }
    ensures { (s : Bool) → sample_of (of_fields binary64 s field digits) ≡ with_sign s result }
{
    if field < FIELD_OF_A_HALF {
        return 0;
    }
    rounded(LEAD + digits, 1075 - field)
}

// Whether a size in range has a fraction; below a half it is nought or has one.
fn has_fraction(field: u64, digits: u64) -> bool
    requires { (field * 2 ^ 52 + digits ≤ 1063 * 2 ^ 52) × (digits < 2 ^ 52) }
    ensures { (s : Bool) → has_fraction (of_fields binary64 s field digits) ≡ result }
{
    if field < FIELD_OF_A_HALF {
        return field + digits != 0;
    }
    rest(LEAD + digits, 1075 - field) != 0
}

// n / 2^k to the nearest whole number, on a tie to the even one: a rest above a half makes one more, and so does a half where the whole part is odd.
fn rounded(n: u64, k: u64) -> u64
    requires { (n < 2 ^ 53) × (1 ≤ k) × (k < 64) }
    ensures { result ≡ closest n (2 ^ k) }
{
    let whole = n >> k;
    if HALF - whole % 2 < rest(n, k) {
        return whole + 1;
    }
    whole
}

// What n / 2^k has after the point, in parts of 2^-64: the low k bits, moved to the top.
fn rest(n: u64, k: u64) -> u64
    requires { (1 ≤ k) × (k < 64) }
    ensures { result ≡ n % 2 ^ k * 2 ^ (64 - k) }
{
    n << (64 - k)
}
