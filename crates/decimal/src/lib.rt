// Whole numbers of 128 bits as decimal digits. What stands between numbers is left to others.

#![tactic(auto)]

ghost use Rattle.std.specs.Prelude.{◌≡◌, ◌++◌, ◌+◌, ◌-◌, ◌/◌, ◌%◌, length, take};
ghost use Rattle.wide.specs.Wide.{value};
ghost use Rattle.decimal.specs.Decimal.{decimal};

use wide::Wide;

// The digits of a number at the end of the array, and where they begin. 39 are enough for every number, so that the loop returns.
pub fn spelled(n: Wide, digits: &mut [u8; 39]) -> usize
    ensures value { result ≡ 39 - length (decimal (value n)) }
    ensures digits_after { digits.new ≡ take result digits.old ++ decimal (value n) }
{
    let mut rest = u128::from(n);
    for i in (0..39).rev() {
        let (tenth, digit) = by_ten(rest);
        digits[i] = b'0' + digit;
        rest = tenth;
        if rest == 0 {
            return i;
        }
    }
    unreachable!()
}

// A tenth and the last digit. A number of one word is divided as such, which is many times faster.
fn by_ten(n: u128) -> (u128, u8)
    ensures { (result.0 ≡ n / 10) × (result.1 ≡ n % 10) }
{
    if n < 1 << 64 {
        let word = n as u64;
        return ((word / 10) as u128, (word % 10) as u8);
    }
    (n / 10, (n % 10) as u8)
}
