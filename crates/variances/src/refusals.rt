// The refusals of entries that take a sum, a factor and a count.
ghost use Rattle.std.specs.Prelude.{◌≡◌};
ghost use Rattle.wide.specs.Wide.{value};
ghost use Rattle.record.specs.Told.{told};
ghost use Rattle.variances.specs.Answers.{figure_refusal};

use record::{Ground, Refused};
use sums::Sum;

// 5, 1 for a count of 0, 2 for a count over 32,768, 3 for a total of 2^126 or more.
pub(crate) fn check(sum: Sum, m: u64) -> Result<(), Refused>
    ensures { told result ≡ figure_refusal (value sum.total) m sum.count }
{
    let count = sum.count;
    if m < 1 {
        return Err(Ground::BadFactor.at(0));
    }
    if (record::LARGEST_FACTOR as u64) < m {
        return Err(Ground::BadFactor.at(0));
    }
    if count == 0 {
        return Err(Ground::TooFew.at(0));
    }
    if record::MOST_SAMPLES < count {
        return Err(Ground::TooMany.at(0));
    }
    let high = sum.total.hi;
    if 4611686018427387904 <= high {
        return Err(Ground::OutOfRange.at(0));
    }
    Ok(())
}
