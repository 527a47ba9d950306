// The published sums, fractions and deviations, and the quieter of two records.
ghost use Rattle.std.specs.Prelude.{◌≡◌};
ghost use Rattle.wide.specs.Wide.{value};
ghost use Rattle.sums.specs.Answers.{allan_sum_answer, modified_sum_answer};
ghost use Rattle.compare.specs.Quieter.{quieter_answer};
ghost use Rattle.variances.specs.Answers.{allan_fraction_answer, time_fraction_answer, allan_deviation_answer, time_deviation_answer};

use compare::QuieterAnswer;
use sums::SumAnswer;
use variances::{DeviationAnswer, FractionAnswer};
use wide::Wide;

// The Allan sum A with its count K.
#[unsafe(no_mangle)]
pub extern "C" fn plg_allan_sum(samples: &[i64], m: u64) -> SumAnswer
    ensures { result ≡ allan_sum_answer m samples.now }
{
    ploegelster::published::plg_allan_sum(samples, m)
}

// The modified sum B with its count C.
#[unsafe(no_mangle)]
pub extern "C" fn plg_modified_sum(samples: &[i64], m: u64) -> SumAnswer
    ensures { result ≡ modified_sum_answer m samples.now }
{
    ploegelster::published::plg_modified_sum(samples, m)
}

// The Allan variance in lowest terms.
#[unsafe(no_mangle)]
pub extern "C" fn plg_allan_fraction(sum: Wide, m: u64, count: u64) -> FractionAnswer
    ensures { result ≡ allan_fraction_answer (value sum) m count }
{
    ploegelster::published::plg_allan_fraction(sum, m, count)
}

// The time variance in lowest terms.
#[unsafe(no_mangle)]
pub extern "C" fn plg_time_fraction(sum: Wide, m: u64, count: u64) -> FractionAnswer
    ensures { result ≡ time_fraction_answer (value sum) m count }
{
    ploegelster::published::plg_time_fraction(sum, m, count)
}

// The deviation of the Allan variance.
#[unsafe(no_mangle)]
pub extern "C" fn plg_allan_deviation(sum: Wide, m: u64, count: u64) -> DeviationAnswer
    ensures { result ≡ allan_deviation_answer (value sum) m count }
{
    ploegelster::published::plg_allan_deviation(sum, m, count)
}

// The deviation of the time variance.
#[unsafe(no_mangle)]
pub extern "C" fn plg_time_deviation(sum: Wide, m: u64, count: u64) -> DeviationAnswer
    ensures { result ≡ time_deviation_answer (value sum) m count }
{
    ploegelster::published::plg_time_deviation(sum, m, count)
}

// Which of two records is the quieter.
#[unsafe(no_mangle)]
pub extern "C" fn plg_quieter(first: &[i64], second: &[i64], m: u64) -> QuieterAnswer
    ensures { result ≡ quieter_answer m first.now second.now }
{
    ploegelster::published::plg_quieter(first, second, m)
}
