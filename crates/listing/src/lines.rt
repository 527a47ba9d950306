// The lines of a record and the closing line, one after the other.
ghost use Rattle.std.specs.Prelude.{◌≡◌, [], ◌++◌, ◌+◌, ◌^◌, ◌≤◌, length};
ghost use Rattle.record.specs.Told.{number_of};
ghost use Rattle.sums.specs.Answers.{allan_sum_answer, modified_sum_answer};
ghost use Rattle.listing.specs.Columns.{factor_line};
ghost use Rattle.listing.specs.Sheet.{factors, lines_of, allan_counts, modified_counts, record_text, totals_with, refused_line, total_line};

use crate::columns::{SPACE, allan_columns, alpha_column, counted, time_columns};
use crate::text::{CLOSING, LINES, Text};
use crate::{Totals, samples};
use record::Refused;

// The factors of 4,096 samples are so many: 1 to 1,024.
const FACTORS: usize = 11;

// Writes the lines of a record file, or the line of its refusal, and gives the totals with it.
pub(crate) fn record_lines(bytes: &[u8], totals: Totals, text: &mut Text<LINES>) -> Totals
    requires { (text.old ≡ []) × (totals.k ≤ 2 ^ 63) × (totals.c ≤ 2 ^ 63) }
    ensures text_after { text.new ≡ record_text bytes.now }
    ensures totals_value { result ≡ totals_with totals bytes.now }
{
    let mut samples = [0i64; samples::MOST];
    match samples::samples_of(bytes, &mut samples) {
        Ok(count) => factor_lines(&samples[..count as usize], totals, text),
        Err(refused) => {
            refused_line(refused, text);
            totals
        }
    }
}

// Writes the lines of all factors of a record, and gives the totals with them.
fn factor_lines(samples: &[i64], mut totals: Totals, text: &mut Text<LINES>) -> Totals
    requires { (text.old ≡ []) × (length samples.now ≤ 4096) × (totals.k ≤ 2 ^ 63) × (totals.c ≤ 2 ^ 63) }
    ensures text_after { text.new ≡ lines_of samples.now (factors (length samples.now)) }
    ensures totals_value { result ≡ record { k = totals.k + allan_counts samples.now (factors (length samples.now)); c = totals.c + modified_counts samples.now (factors (length samples.now)) } }
{
    for i in 0..FACTORS {
        let m: u64 = 1 << i;
        if samples.len() as u64 <= 2 * m {
            return totals;
        }
        totals = factor_line(samples, m, totals, text);
    }
    totals
}

// Writes the line of a factor behind those before it, and gives the totals with it.
#[tactic(auto, using(crate::proofs::FactorLaws::allan_count_within, crate::proofs::FactorLaws::modified_count_within), unfolding(crate::specs::Columns::factor_line, crate::specs::Columns::line))]
fn factor_line(samples: &[i64], m: u64, totals: Totals, text: &mut Text<LINES>) -> Totals
    requires { (length text.old + 405 ≤ 4608) × (length samples.now ≤ 4096) × (totals.k ≤ 2 ^ 63 + 65536) × (totals.c ≤ 2 ^ 63 + 65536) }
    ensures text_after { text.new ≡ text.old ++ factor_line samples.now m }
    ensures room { length text.new ≤ length text.old + 405 }
    ensures totals_value { result ≡ record { k = totals.k + (allan_sum_answer m samples.now).count; c = totals.c + (modified_sum_answer m samples.now).count } }
{
    let allan = sums::allan(samples, m);
    let modified = sums::modified(samples, m);
    allan_columns(m, allan, text);
    time_columns(m, modified, text);
    alpha_column(noise::of_record(samples, m), text);
    Totals {
        k: totals.k + counted(allan).count,
        c: totals.c + counted(modified).count,
    }
}

// Writes the line of a record that is refused as a whole.
#[tactic(auto, unfolding(crate::specs::Sheet::refused_line, crate::specs::Columns::line))]
fn refused_line(refused: Refused, text: &mut Text<LINES>)
    requires { text.old ≡ [] }
    ensures { text.new ≡ refused_line (record { number = number_of refused.why; place = refused.place }) }
{
    text.put(b"refused ");
    text.number(refused.why.into(), SPACE);
    text.put(b"at ");
    text.number(refused.place, b'\n');
}

// Writes the closing line.
#[tactic(auto, unfolding(crate::specs::Sheet::total_line, crate::specs::Columns::line))]
pub(crate) fn total_line(totals: Totals, text: &mut Text<CLOSING>)
    requires { text.old ≡ [] }
    ensures { text.new ≡ total_line totals }
{
    text.put(b"total ");
    text.number(totals.k, SPACE);
    text.number(totals.c, b'\n');
}
