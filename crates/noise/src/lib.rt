// Noise types, from two time deviations or from a record, and error bars. Deviations are those of crate variances, doubles those of crate plot.

#![tactic(auto)]

pub mod bars;

ghost use Rattle.std.specs.Prelude.{◌≡◌, pos, nat_abs, ◌-ℤ◌};
ghost use Rattle.record.specs.Refusals.{none, record_refusal};
ghost use Rattle.sums.specs.Answers.{modified_demand};
ghost use Rattle.record.specs.Told.{told};
ghost use Rattle.noise.specs.Noise.{alpha_of, HasAlpha, kappa_of, noise_of, noise_refusal, type_answer, time_deviation, record_type_answer};
ghost use Rattle.noise.specs.Told.{noise_told};

use record::{Demand, Ground, Refused};

// The five types, in the order of their alphas, from 2 down; no other can be handed in.
#[derive(Clone, Copy, Debug, PartialEq, Eq)]
pub enum Noise {
    WhitePhase,
    FlickerPhase,
    WhiteFrequency,
    FlickerFrequency,
    RandomWalkFrequency,
}

impl Noise {
    // Kappa in hundredths.
    pub(crate) fn kappa(self) -> u64
        ensures { result ≡ kappa_of self }
    {
        let at = self.index();
        KAPPA[at]
    }

    // The place in the table, whose alpha falls from 2 by one a row.
    #[tactic(auto, unfolding(crate::specs::Noise::alpha_of))]
    fn index(self) -> usize
        ensures { result ≡ nat_abs (pos 2 -ℤ alpha_of self) }
    {
        match self {
            Noise::WhitePhase => 0,
            Noise::FlickerPhase => 1,
            Noise::WhiteFrequency => 2,
            Noise::FlickerFrequency => 3,
            Noise::RandomWalkFrequency => 4,
        }
    }
}

// An alpha that no type has.
#[derive(Clone, Copy, Debug, PartialEq, Eq)]
pub struct UnknownAlpha(pub i64);

// A type as its alpha.
impl From<Noise> for i64 {
    ghost from_gives = { λ noise alpha. alpha ≡ alpha_of noise };

    #[tactic(auto, unfolding(crate::specs::Noise::alpha_of))]
    fn from(noise: Noise) -> i64 {
        match noise {
            Noise::WhitePhase => 2,
            Noise::FlickerPhase => 1,
            Noise::WhiteFrequency => 0,
            Noise::FlickerFrequency => -1,
            Noise::RandomWalkFrequency => -2,
        }
    }
}

// The type that has an alpha.
impl TryFrom<i64> for Noise {
    type Error = UnknownAlpha;

    ghost try_from_gives = { HasAlpha };

    #[tactic(auto, unfolding(crate::specs::Noise::alpha_of))]
    fn try_from(alpha: i64) -> Result<Noise, UnknownAlpha> {
        match alpha {
            2 => Ok(Noise::WhitePhase),
            1 => Ok(Noise::FlickerPhase),
            0 => Ok(Noise::WhiteFrequency),
            -1 => Ok(Noise::FlickerFrequency),
            -2 => Ok(Noise::RandomWalkFrequency),
            _ => Err(UnknownAlpha(alpha)),
        }
    }
}

// A type; beside a refusal it is the first of the table.
#[derive(Clone, Copy)]
pub struct NoiseAnswer {
    pub number: u64,
    pub place: u64,
    pub noise: Noise,
}

// Kappa in hundredths, by type.
const KAPPA: [u64; 5] = [99, 99, 87, 77, 75];
// The types but the last, each with its bound in 4096ths of r2 / r1.
const BOUNDS: [(Noise, u64); 4] = [
    (Noise::WhitePhase, 3444),
    (Noise::FlickerPhase, 4871),
    (Noise::WhiteFrequency, 6889),
    (Noise::FlickerFrequency, 9742),
];
// The largest deviation that has a type or a bar.
pub(crate) const LARGEST_DEVIATION: u64 = 1 << 62;
// What the type of a record asks of it: N at least 6m.
pub const NOISE: Demand = Demand {
    largest: 5461,
    each: 6,
    besides: 0,
};

// The type by the time deviations at m and 2m. Refuses 3 for one above 2^62, then 8 for r1 = 0.
pub fn by_deviations(r1: u64, r2: u64) -> Result<Noise, Refused>
    ensures { noise_told result ≡ type_answer r1 r2 }
{
    check_deviations(r1, r2)?;
    Ok(noise_of(r1, r2))
}

// The type of a record at factor m. Refuses 5, 2, 1, 3 at the lowest index, then 8.
pub fn of_record(samples: &[i64], m: u64) -> Result<Noise, Refused>
    ensures { noise_told result ≡ record_type_answer m samples.now }
{
    record::check_record(NOISE, m, samples)?;
    by_deviations(time_deviation(samples, m), time_deviation(samples, 2 * m))
}

// The type by two deviations as it is told.
pub fn noise_type(r1: u64, r2: u64) -> NoiseAnswer
    ensures { result ≡ type_answer r1 r2 }
{
    NoiseAnswer::from(by_deviations(r1, r2))
}

// The type of a record as it is told.
pub fn noise_of_record(samples: &[i64], m: u64) -> NoiseAnswer
    ensures { result ≡ record_type_answer m samples.now }
{
    NoiseAnswer::from(of_record(samples, m))
}

impl From<Result<Noise, Refused>> for NoiseAnswer {
    ghost from_gives = { λ found answer. answer ≡ noise_told found };

    fn from(found: Result<Noise, Refused>) -> NoiseAnswer {
        match found {
            Ok(noise) => NoiseAnswer {
                number: 0,
                place: 0,
                noise,
            },
            Err(refused) => NoiseAnswer {
                number: refused.why.into(),
                place: refused.place,
                noise: Noise::WhitePhase,
            },
        }
    }
}

// The time deviation of a record that is sound for the modified sum.
fn time_deviation(samples: &[i64], m: u64) -> u64
    requires { record_refusal modified_demand m samples.now ≡ none }
    ensures { result ≡ time_deviation m samples.now }
{
    let modified = sums::modified(samples, m).unwrap();
    variances::deviations::time_root(modified, m).unwrap()
}

// 3 for a deviation above 2^62, then 8 for r1 = 0.
fn check_deviations(r1: u64, r2: u64) -> Result<(), Refused>
    ensures { told result ≡ noise_refusal r1 r2 }
{
    if LARGEST_DEVIATION < r1 || LARGEST_DEVIATION < r2 {
        return Err(Ground::OutOfRange.at(0));
    }
    if r1 == 0 {
        return Err(Ground::NoDeviation.at(0));
    }
    Ok(())
}

// The type by the house rule: that of the first bound that 4096 r2 is at or under, of r1 times each; the last type where it is above all.
fn noise_of(r1: u64, r2: u64) -> Noise
    ensures { result ≡ noise_of r1 r2 }
{
    let ratio = wide::product(4096, r2);
    for (noise, bound) in BOUNDS {
        if wide::at_most(ratio, wide::product(r1, bound)) {
            return noise;
        }
    }
    Noise::RandomWalkFrequency
}
