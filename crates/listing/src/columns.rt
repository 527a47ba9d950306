// The columns of a line, each with the byte that follows it.
ghost use Rattle.std.specs.Prelude.{◌≡◌, [], ◌∷◌, ◌++◌, ◌+◌, ◌≤◌, length};
ghost use Rattle.wide.specs.Wide.{value};
ghost use Rattle.decimal.specs.Decimal.{decimal};
ghost use Rattle.record.specs.Told.{number_of};
ghost use Rattle.sums.specs.Told.{sum_told};
ghost use Rattle.variances.specs.Answers.{allan_fraction_answer, time_fraction_answer, allan_deviation_answer, time_deviation_answer};
ghost use Rattle.variances.specs.Told.{fraction_told, deviation_told};
ghost use Rattle.noise.specs.Told.{noise_told};
ghost use Rattle.listing.specs.Columns.{spaced, fraction_column, count_column, deviation_column, alpha_column};

use crate::text::{LINES, Text};
use noise::Noise;
use record::{Ground, Refused};
use sums::Sum;
use variances::fractions::Fraction;
use variances::{deviations, fractions};
use wide::Wide;

// Between two columns.
pub(crate) const SPACE: u8 = b' ';

// What a sum that is refused counts as.
const NOUGHTS: Sum = Sum {
    total: Wide { hi: 0, lo: 0 },
    count: 0,
};

// The factor, the Allan variance, K and the Allan deviation.
pub(crate) fn allan_columns(m: u64, sum: Result<Sum, Refused>, text: &mut Text<LINES>)
    requires { length text.old + 202 ≤ 4608 }
    ensures text_after { text.new ≡ text.old ++ spaced (decimal m ∷ fraction_column (allan_fraction_answer (value (sum_told sum).sum) m (sum_told sum).count) ∷ count_column (sum_told sum) ∷ deviation_column (allan_deviation_answer (value (sum_told sum).sum) m (sum_told sum).count) ∷ []) }
    ensures room { length text.new ≤ length text.old + 202 }
{
    let counted = counted(sum);
    text.number(m, SPACE);
    figure_columns(
        fractions::allan_variance(counted, m),
        sum,
        deviations::allan_root(counted, m),
        text,
    );
}

// The time variance, C and the time deviation.
pub(crate) fn time_columns(m: u64, sum: Result<Sum, Refused>, text: &mut Text<LINES>)
    requires { length text.old + 162 ≤ 4608 }
    ensures text_after { text.new ≡ text.old ++ spaced (fraction_column (time_fraction_answer (value (sum_told sum).sum) m (sum_told sum).count) ∷ count_column (sum_told sum) ∷ deviation_column (time_deviation_answer (value (sum_told sum).sum) m (sum_told sum).count) ∷ []) }
    ensures room { length text.new ≤ length text.old + 162 }
{
    let counted = counted(sum);
    figure_columns(
        fractions::time_variance(counted, m),
        sum,
        deviations::time_root(counted, m),
        text,
    );
}

// A sum as it counts.
pub(crate) fn counted(sum: Result<Sum, Refused>) -> Sum
    ensures { result ≡ record { total = (sum_told sum).sum; count = (sum_told sum).count } }
{
    sum.unwrap_or(NOUGHTS)
}

// Alpha, `-` where there are too few samples for it, and the end of the line.
#[tactic(auto, unfolding(crate::specs::Columns::alpha_column, crate::specs::Columns::told_or))]
pub(crate) fn alpha_column(noise: Result<Noise, Refused>, text: &mut Text<LINES>)
    requires { length text.old + 41 ≤ 4608 }
    ensures text_after { text.new ≡ text.old ++ (alpha_column (noise_told noise) ++ (0x0A ∷ [])) }
    ensures room { length text.new ≤ length text.old + 41 }
{
    match noise {
        Ok(noise) => text.signed(i64::from(noise), b'\n'),
        Err(refused) if refused.why == Ground::TooFew => text.put(b"-\n"),
        Err(refused) => refused_column(refused, b'\n', text),
    }
}

// A variance, the count of its sum and its deviation.
fn figure_columns(
    variance: Result<Fraction, Refused>,
    sum: Result<Sum, Refused>,
    root: Result<u64, Refused>,
    text: &mut Text<LINES>,
)
    requires { length text.old + 162 ≤ 4608 }
    ensures text_after { text.new ≡ text.old ++ spaced (fraction_column (fraction_told variance) ∷ count_column (sum_told sum) ∷ deviation_column (deviation_told root) ∷ []) }
    ensures room { length text.new ≤ length text.old + 162 }
{
    fraction_column(variance, text);
    count_column(sum, text);
    deviation_column(root, text);
}

// A fraction and a space.
#[tactic(auto, unfolding(crate::specs::Columns::fraction_column, crate::specs::Columns::told_or))]
fn fraction_column(variance: Result<Fraction, Refused>, text: &mut Text<LINES>)
    requires { length text.old + 80 ≤ 4608 }
    ensures text_after { text.new ≡ text.old ++ (fraction_column (fraction_told variance) ++ (0x20 ∷ [])) }
    ensures room { length text.new ≤ length text.old + 80 }
{
    match variance {
        Ok(fraction) => {
            text.wide(fraction.numerator, b'/');
            text.number(fraction.denominator, SPACE);
        }
        Err(refused) => refused_column(refused, SPACE, text),
    }
}

// The count of a sum and a space.
#[tactic(auto, unfolding(crate::specs::Columns::count_column, crate::specs::Columns::told_or))]
fn count_column(sum: Result<Sum, Refused>, text: &mut Text<LINES>)
    requires { length text.old + 41 ≤ 4608 }
    ensures text_after { text.new ≡ text.old ++ (count_column (sum_told sum) ++ (0x20 ∷ [])) }
    ensures room { length text.new ≤ length text.old + 41 }
{
    match sum {
        Ok(sum) => text.number(sum.count, SPACE),
        Err(refused) => refused_column(refused, SPACE, text),
    }
}

// A deviation and a space.
#[tactic(auto, unfolding(crate::specs::Columns::deviation_column, crate::specs::Columns::told_or))]
fn deviation_column(root: Result<u64, Refused>, text: &mut Text<LINES>)
    requires { length text.old + 41 ≤ 4608 }
    ensures text_after { text.new ≡ text.old ++ (deviation_column (deviation_told root) ++ (0x20 ∷ [])) }
    ensures room { length text.new ≤ length text.old + 41 }
{
    match root {
        Ok(root) => text.number(root, SPACE),
        Err(refused) => refused_column(refused, SPACE, text),
    }
}

// What stands in the place of a figure that is refused.
fn refused_column(refused: Refused, after: u8, text: &mut Text<LINES>)
    requires { length text.old + 41 ≤ 4608 }
    ensures text_after { text.new ≡ text.old ++ (0x72 ∷ (decimal (number_of refused.why) ++ (after ∷ []))) }
    ensures room { length text.new ≤ length text.old + 41 }
{
    text.put(b"r");
    text.number(refused.why.into(), after);
}
