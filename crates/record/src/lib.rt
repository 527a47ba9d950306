// The limits of records, the refusal numbers, and the checks that entries share. What is worked from a record is left to others.

#![tactic(auto)]

pub mod grounds;

ghost use Rattle.std.specs.Prelude.{◌≡◌, ◌+◌, ◌%◌, ◌^◌, true};
ghost use Rattle.std.specs.Int.{w64};
ghost use Rattle.std.proofs.Common.{of_z};
ghost use Rattle.record.specs.Refusals.{none, in_range, range_refusal, size_refusal, record_refusal};
ghost use Rattle.record.specs.Told.{told};

pub use grounds::{Ground, Refused};

// A phase sample lies within this many picoseconds either way: 2^40.
pub const LARGEST_SAMPLE: i64 = 1099511627776;
// A frequency value lies within this many picoseconds either way: 2^41.
pub const LARGEST_FREQUENCY: i64 = 2199023255552;
// The most samples of a record.
pub const MOST_SAMPLES: u64 = 32768;
// The most readings of a frequency record.
pub const MOST_READINGS: u64 = 32767;
// The largest factor m.
pub const LARGEST_FACTOR: u16 = 10922;

// What is refused and where; number 0 refuses nothing.
#[derive(Clone, Copy)]
pub struct Refusal {
    pub number: u64,
    pub place: u64,
}

// What an entry that fills a lent buffer answers: how many entries it wrote.
#[repr(C)]
#[derive(Clone, Copy)]
pub struct CountAnswer {
    pub number: u64,
    pub place: u64,
    pub count: u64,
}

// What an entry asks of a record at factor m: m from 1 to the largest, and each * m + besides samples or more.
#[derive(Clone, Copy)]
pub struct Demand {
    pub largest: u16,
    pub each: u16,
    pub besides: u16,
}

// Whether a phase sample lies in its range.
pub fn in_range(x: i64) -> bool
    ensures { result ≡ in_range x }
{
    if x < -LARGEST_SAMPLE {
        return false;
    }
    x <= LARGEST_SAMPLE
}

// 3 at the first sample outside its range.
pub fn check_range(samples: &[i64]) -> Result<(), Refused>
    ensures { told result ≡ range_refusal samples.now }
{
    if surely_in_range(samples) {
        return Ok(());
    }
    first_outside(samples)
}

// 5, 2, 1: what the factor m and the number n of samples alone refuse.
pub fn check_size(demand: Demand, m: u64, n: u64) -> Result<(), Refused>
    ensures { told result ≡ size_refusal demand m n }
{
    let largest = demand.largest as u64;
    if m < 1 {
        return Err(Ground::BadFactor.at(0));
    }
    if largest < m {
        return Err(Ground::BadFactor.at(0));
    }
    if MOST_SAMPLES < n {
        return Err(Ground::TooMany.at(0));
    }
    if n < demand.each as u64 * m + demand.besides as u64 {
        return Err(Ground::TooFew.at(0));
    }
    Ok(())
}

// 5, 2, 1, then 3 at the lowest index: the check of a record.
pub fn check_record(demand: Demand, m: u64, samples: &[i64]) -> Result<(), Refused>
    ensures { told result ≡ record_refusal demand m samples.now }
{
    check_size(demand, m, samples.len() as u64)?;
    check_range(samples)
}

// check_range as its number and place.
pub fn range_refusal(samples: &[i64]) -> Refusal
    ensures { result ≡ range_refusal samples.now }
{
    Refusal::from(check_range(samples))
}

// check_size as its number and place.
pub fn size_refusal(demand: Demand, m: u64, n: u64) -> Refusal
    ensures { result ≡ size_refusal demand m n }
{
    Refusal::from(check_size(demand, m, n))
}

// check_record as its number and place.
pub fn record_refusal(demand: Demand, m: u64, samples: &[i64]) -> Refusal
    ensures { result ≡ record_refusal demand m samples.now }
{
    Refusal::from(check_record(demand, m, samples))
}

// Nought beside a refusal.
pub fn refused_count(number: u64, place: u64) -> CountAnswer
    ensures { result ≡ record { number = number; place = place; count = 0 } }
{
    CountAnswer {
        number,
        place,
        count: 0,
    }
}

// What moves a sample up, so that its range starts at nought: 2^40.
const RISE: u64 = 1099511627776;

// Whether every sample surely lies in its range. The pass has no way out, so that a machine works several samples at a time. A sample at the upper end
// may leave it unsure.
fn surely_in_range(samples: &[i64]) -> bool
    ensures { result ≡ true → range_refusal samples.now ≡ none }
{
    let mut reached: u64 = 0;
    for &x in samples {
        reached |= moved_up(x);
    }
    reached <= 2 * RISE
}

// A sample's word moved up, modulo 2^64: at most twice 2^40 where the sample lies in its range.
fn moved_up(x: i64) -> u64
    ensures { result ≡ (of_z w64 x + 2 ^ 40) % 2 ^ 64 }
{
    if x < 0 {
        return std::num::wrapping_add_u64(18446744073709551615 - (0 - (x + 1)) as u64, RISE);
    }
    std::num::wrapping_add_u64(x as u64, RISE)
}

// 3 at the first sample outside its range, sample by sample.
fn first_outside(samples: &[i64]) -> Result<(), Refused>
    ensures { told result ≡ range_refusal samples.now }
{
    for (i, &x) in samples.iter().enumerate() {
        if !in_range(x) {
            return Err(Ground::OutOfRange.at(i as u64));
        }
    }
    Ok(())
}
