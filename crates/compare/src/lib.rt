// Which of two records is the quieter, by their Allan variances as exact fractions. The sums and the checks of a record are those of crate sums.

#![tactic(auto)]

ghost use Rattle.std.specs.Prelude.{◌≡◌, ◌*◌, ◌^◌, ◌≤◌, ◌<◌, leb};
ghost use Rattle.wide.specs.Wide.{value, halves};
ghost use Rattle.compare.specs.Quieter.{quieter_answer, quieter_record};
ghost use Rattle.compare.specs.Told.{which_of, which_told};

use record::Refused;
use sums::Sum;
use wide::Wide;

// Which of two records is the quieter.
#[derive(Clone, Copy, Debug, PartialEq, Eq)]
pub enum Choice {
    First,
    Second,
}

// The same as C is told it: 1 the first, 2 the second; 0 beside a refusal.
#[repr(C)]
#[derive(Clone, Copy)]
pub struct QuieterAnswer {
    pub number: u64,
    pub place: u64,
    pub which: u64,
}

// The record itself, of the two that are lent, which has the smaller Allan variance at factor m; on equality the first. If either is refused, the
// empty part: `compared` says why.
pub fn quieter<'a>(first: &'a [i64], second: &'a [i64], m: u64) -> &'a [i64]
    ensures { result ≡ quieter_record m first.entry second.entry }
{
    match compared(first, second, m) {
        Ok(Choice::First) => first,
        Ok(Choice::Second) => second,
        Err(_) => &first[..0],
    }
}

// Which of the two it is. Refuses 5, then 2, 1 and 3 of the first record, then the same of the second.
pub fn compared(first: &[i64], second: &[i64], m: u64) -> Result<Choice, Refused>
    ensures { which_told result ≡ quieter_answer m first.now second.now }
{
    let one = sums::allan(first, m)?;
    let two = sums::allan(second, m)?;
    if not_above(one, two) {
        return Ok(Choice::First);
    }
    Ok(Choice::Second)
}

// Which of the two it is, as C is told it.
pub fn which_quieter(first: &[i64], second: &[i64], m: u64) -> QuieterAnswer
    ensures { result ≡ quieter_answer m first.now second.now }
{
    QuieterAnswer::from(compared(first, second, m))
}

impl From<Choice> for u64 {
    ghost from_gives = { λ choice which. which ≡ which_of choice };

    fn from(choice: Choice) -> u64 {
        match choice {
            Choice::First => 1,
            Choice::Second => 2,
        }
    }
}

impl From<Result<Choice, Refused>> for QuieterAnswer {
    ghost from_gives = { λ compared answer. answer ≡ which_told compared };

    fn from(compared: Result<Choice, Refused>) -> QuieterAnswer {
        match compared {
            Ok(choice) => QuieterAnswer {
                number: 0,
                place: 0,
                which: choice.into(),
            },
            Err(refused) => QuieterAnswer {
                number: refused.why.into(),
                place: refused.place,
                which: 0,
            },
        }
    }
}

// Whether one total over its count is not above another over its own, crosswise: each product stays below 2^114.
fn not_above(one: Sum, two: Sum) -> bool
    requires { (one.count ≤ 32768) × (two.count ≤ 32768) × (value one.total ≤ one.count * 2 ^ 84) × (value two.total ≤ two.count * 2 ^ 84) }
    ensures { result ≡ leb (value one.total * two.count) (value two.total * one.count) }
{
    wide::at_most(times(one.total, two.count), times(two.total, one.count))
}

// A number in two halves times a count.
fn times(a: Wide, count: u64) -> Wide
    requires { (value a < 2 ^ 100) × (count ≤ 32768) }
    ensures { result ≡ halves (value a * count) }
{
    let hi = a.hi * count;
    let low = wide::product(a.lo, count);
    wide::sum(Wide { hi, lo: 0 }, low)
}
