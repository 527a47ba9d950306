// The published sums of a phase record. The checks of a record are those of crate record; variances, drawing and the running meter are left to
// others.

#![tactic(auto)]

mod blocks;
mod squares;
mod totals;

ghost use Rattle.std.specs.Prelude.{◌≡◌};
ghost use Rattle.sums.specs.Answers.{allan_sum_answer, modified_sum_answer};
ghost use Rattle.sums.specs.Told.{sum_told, part_told};

use record::{Demand, Ground, Refused};
use totals::Record;
use wide::Wide;

// What the Allan sum asks of a record: N at least 2m + 1.
pub const ALLAN: Demand = Demand {
    largest: record::LARGEST_FACTOR,
    each: 2,
    besides: 1,
};

// What the modified sum asks of a record: N at least 3m.
pub const MODIFIED: Demand = Demand {
    largest: record::LARGEST_FACTOR,
    each: 3,
    besides: 0,
};

// A sum of squares, and its count.
#[derive(Clone, Copy)]
pub struct Sum {
    pub total: Wide,
    pub count: u64,
}

// A sum with its count as C is told it; noughts beside a refusal.
#[repr(C)]
#[derive(Clone, Copy)]
pub struct SumAnswer {
    pub number: u64,
    pub place: u64,
    pub sum: Wide,
    pub count: u64,
}

// One sum with its count as a part of an answer; its own number is 1 where it is not due.
#[repr(C)]
#[derive(Clone, Copy)]
pub struct Part {
    pub number: u64,
    pub sum: Wide,
    pub count: u64,
}

// A part of an answer that is refused as a whole.
pub const NO_PART: Part = Part {
    number: 0,
    sum: Wide { hi: 0, lo: 0 },
    count: 0,
};

// The Allan sum A with its count K. Refuses 5, 2, 1, then 3 at the lowest index.
pub fn allan(samples: &[i64], m: u64) -> Result<Sum, Refused>
    ensures { sum_told result ≡ allan_sum_answer m samples.now }
{
    record::check_record(ALLAN, m, samples)?;
    let record = Record {
        samples,
        m: m as usize,
    };
    let total = record.allan_total();
    let count = samples.len() as u64 - 2 * m;
    Ok(Sum { total, count })
}

// The modified sum B with its count C. Refuses 5, 2, 1, then 3 at the lowest index.
pub fn modified(samples: &[i64], m: u64) -> Result<Sum, Refused>
    ensures { sum_told result ≡ modified_sum_answer m samples.now }
{
    record::check_record(MODIFIED, m, samples)?;
    let record = Record {
        samples,
        m: m as usize,
    };
    let total = record.modified_total();
    let count = samples.len() as u64 + 1 - 3 * m;
    Ok(Sum { total, count })
}

// The Allan sum as C is told it.
pub fn allan_sum(samples: &[i64], m: u64) -> SumAnswer
    ensures { result ≡ allan_sum_answer m samples.now }
{
    SumAnswer::from(allan(samples, m))
}

// The modified sum as C is told it.
pub fn modified_sum(samples: &[i64], m: u64) -> SumAnswer
    ensures { result ≡ modified_sum_answer m samples.now }
{
    SumAnswer::from(modified(samples, m))
}

impl From<Result<Sum, Refused>> for SumAnswer {
    ghost from_gives = { λ sum answer. answer ≡ sum_told sum };

    fn from(sum: Result<Sum, Refused>) -> SumAnswer {
        match sum {
            Ok(sum) => SumAnswer {
                number: 0,
                place: 0,
                sum: sum.total,
                count: sum.count,
            },
            Err(refused) => SumAnswer {
                number: refused.why.into(),
                place: refused.place,
                sum: NOUGHT,
                count: 0,
            },
        }
    }
}

impl From<Option<Sum>> for Part {
    ghost from_gives = { λ sum part. part ≡ part_told sum };

    fn from(sum: Option<Sum>) -> Part {
        match sum {
            Some(sum) => Part {
                number: 0,
                sum: sum.total,
                count: sum.count,
            },
            None => Part {
                number: Ground::TooFew.into(),
                sum: NOUGHT,
                count: 0,
            },
        }
    }
}

// What stands beside a refusal.
const NOUGHT: Wide = Wide { hi: 0, lo: 0 };
