// The drift figure of a record, and a record without its drift. Nothing is written where a call is refused. The check of samples is that of crate
// record; sums and variances of what is left are left to others.

#![tactic(auto)]

ghost use Rattle.std.specs.Prelude.{◌≡◌, ◌-◌, ◌*◌, ◌≤◌, ◌<◌, ◌^◌, ltb, pos, ◌+ℤ◌, ◌*ℤ◌, length, IfOk, MatchResult};
ghost use Rattle.laws.specs.Lists.{at, written, first_failing};
ghost use Rattle.record.specs.Refusals.{none, refused, refused_if, ◌then◌, in_range};
ghost use Rattle.record.specs.Answers.{count_answer, buffer_left};
ghost use Rattle.record.specs.Told.{number_of, told, count_told};
ghost use Rattle.drift.specs.Drift.{drift_h, drift_p, drift_r, drift_refusal, drift_answer, without_drift, removal_refusal};
ghost use Rattle.drift.specs.Told.{drift_told};

use record::{CountAnswer, Ground, Refused};

// The fewest samples that have a drift.
pub const FEWEST_SAMPLES: usize = 3;

// P over R.
#[derive(Clone, Copy)]
pub struct Drift {
    pub p: i64,
    pub r: u64,
}

// P over R as C is told it; noughts beside a refusal.
#[repr(C)]
#[derive(Clone, Copy)]
pub struct DriftAnswer {
    pub number: u64,
    pub place: u64,
    pub p: i64,
    pub r: u64,
}

// The drift figure: with h the whole part of (N-1)/2, P = x_(2h) - 2 x_h + x_0 and R = h^2. Refuses 2, 1 under 3 samples, then 3 at the lowest index.
pub fn figure(samples: &[i64]) -> Result<Drift, Refused>
    ensures { drift_told result ≡ drift_answer samples.now }
{
    let sound = Sound::new(samples)?;
    Ok(Drift {
        p: sound.figure_p(),
        r: sound.figure_r(),
    })
}

// Each sample less floor(P i (i-1) / (2R)). Refuses 2, 1, 6, then 3 at the first sample and then at the first result outside the sample range.
pub fn removed(samples: &[i64], buffer: &mut [i64]) -> Result<u64, Refused>
    ensures value { count_told result ≡ count_answer (removal_refusal samples.now (length buffer.old)) (length samples.now) }
    ensures buffer_after { buffer.new ≡ buffer_left (removal_refusal samples.now (length buffer.old)) (without_drift samples.now) buffer.old }
{
    let slope = slope_with_room(samples, buffer.len())?;
    slope.check_results()?;
    slope.write_results(buffer);
    Ok(samples.len() as u64)
}

// The drift figure as C is told it.
pub fn drift_figure(samples: &[i64]) -> DriftAnswer
    ensures { result ≡ drift_answer samples.now }
{
    DriftAnswer::from(figure(samples))
}

// The removal as C is told it.
pub fn remove_drift(samples: &[i64], buffer: &mut [i64]) -> CountAnswer
    ensures value { result ≡ count_answer (removal_refusal samples.now (length buffer.old)) (length samples.now) }
    ensures buffer_after { buffer.new ≡ buffer_left (removal_refusal samples.now (length buffer.old)) (without_drift samples.now) buffer.old }
{
    CountAnswer::from(removed(samples, buffer))
}

impl From<Result<Drift, Refused>> for DriftAnswer {
    ghost from_gives = { λ drift answer. answer ≡ drift_told drift };

    fn from(drift: Result<Drift, Refused>) -> DriftAnswer {
        match drift {
            Ok(drift) => DriftAnswer {
                number: 0,
                place: 0,
                p: drift.p,
                r: drift.r,
            },
            Err(refused) => DriftAnswer {
                number: refused.why.into(),
                place: refused.place,
                p: 0,
                r: 0,
            },
        }
    }
}

// The slope of a record whose results a buffer of so many entries holds. Refuses 2, 1, 6, then 3 at the first sample.
fn slope_with_room<'a>(samples: &'a [i64], room: usize) -> Result<Slope<'a>, Refused>
    ensures { MatchResult result (λ slope. (slope.samples.now ≡ samples.now) × (length samples.now ≤ room)) (λ e. refused (number_of e.why) e.place ≡ removal_refusal samples.now room) }
{
    let count = samples.len();
    check_size(count)?;
    if room < count {
        return Err(Ground::NoRoom.at(0));
    }
    Ok(Sound::new(samples)?.slope())
}

// 2, then 1 under 3 samples.
fn check_size(count: usize) -> Result<(), Refused>
    ensures { told result ≡ (refused_if (ltb 32768 count) 2 0 then refused_if (ltb count 3) 1 0) }
{
    if record::MOST_SAMPLES < count as u64 {
        return Err(Ground::TooMany.at(0));
    }
    if count < FEWEST_SAMPLES {
        return Err(Ground::TooFew.at(0));
    }
    Ok(())
}

// A record that is not refused.
#[derive(Clone, Copy)]
struct Sound<'a> {
    samples: &'a [i64],
    ghost unrefused: { drift_refusal samples.now ≡ none },
}

impl<'a> Sound<'a> {
    // The record, if it is sound. Refuses 2, 1 under 3 samples, then 3 at the lowest index.
    fn new(samples: &'a [i64]) -> Result<Sound<'a>, Refused>
        ensures refusal { told result ≡ drift_refusal samples.now }
        ensures same { IfOk result (λ sound. sound.samples.now ≡ samples.now) }
    {
        check_size(samples.len())?;
        record::check_range(samples)?;
        Ok(Sound { samples })
    }

    // h.
    fn half(&self) -> usize
        ensures { result ≡ drift_h self.now.samples.now }
    {
        (self.samples.len() - 1) / 2
    }

    // P.
    fn figure_p(&self) -> i64
        ensures { result ≡ drift_p self.now.samples.now }
    {
        let samples = self.samples;
        let h = self.half();
        samples[2 * h] - 2 * samples[h] + samples[0]
    }

    // R.
    fn figure_r(&self) -> u64
        ensures { result ≡ drift_r self.now.samples.now }
    {
        let h = self.half() as u64;
        h * h
    }

    // P taken apart by R, rounded down.
    fn slope(&self) -> Slope<'a>
        ensures { result.samples.now ≡ self.now.samples.now }
    {
        let samples = self.samples;
        let p = self.figure_p();
        let r = self.figure_r();
        Slope {
            samples,
            r,
            whole: p.div_euclid(r as i64),
            rest: p.rem_euclid(r as i64) as u64,
        }
    }
}

// A record that is not refused, with P taken apart by R: P is whole * R + rest, and rest is below R.
#[derive(Clone, Copy)]
struct Slope<'a> {
    samples: &'a [i64],
    r: u64,
    whole: i64,
    rest: u64,
    ghost unrefused: { drift_refusal samples.now ≡ none },
    ghost square: { r ≡ drift_r samples.now },
    ghost below: { rest < drift_r samples.now },
    ghost parts: { drift_p samples.now ≡ whole *ℤ pos (drift_r samples.now) +ℤ pos rest },
}

impl<'a> Slope<'a> {
    // The first result outside the sample range, or the number of samples.
    fn first_outside(&self) -> usize
        ensures { result ≡ first_failing in_range (without_drift self.now.samples.now) }
    {
        let count = self.samples.len();
        for i in 0..count {
            if !record::in_range(self.result_at(i)) {
                return i;
            }
        }
        count
    }

    // 3 at the first result outside the sample range.
    fn check_results(&self) -> Result<(), Refused>
        ensures { told result ≡ refused_if (ltb (first_failing in_range (without_drift self.now.samples.now)) (length self.now.samples.now)) 3 (first_failing in_range (without_drift self.now.samples.now)) }
    {
        let outside = self.first_outside();
        if outside < self.samples.len() {
            return Err(Ground::OutOfRange.at(outside as u64));
        }
        Ok(())
    }

    // The results at the front of the buffer.
    fn write_results(&self, buffer: &mut [i64])
        requires { length self.now.samples.now ≤ length buffer.old }
        ensures { buffer.new ≡ written (without_drift self.now.samples.now) buffer.old }
    {
        let count = self.samples.len();
        for (i, place) in buffer[..count].iter_mut().enumerate() {
            *place = self.result_at(i);
        }
    }

    // The result at i. With T = i (i-1) / 2, floor(P T / R) is whole * T + floor(rest * T / R), and every step fits a word.
    fn result_at(&self, i: usize) -> i64
        requires { i < length self.now.samples.now }
        ensures { result ≡ at (without_drift self.now.samples.now) i }
    {
        let t = triangle(i as u64);
        let down = self.whole * t as i64 + (self.rest * t / self.r) as i64;
        self.samples[i] - down
    }
}

// i (i-1) / 2.
fn triangle(i: u64) -> u64
    requires { i ≤ 2 ^ 15 }
    ensures { 2 * result ≡ i * (i - 1) }
{
    if i == 0 {
        return 0;
    }
    i * (i - 1) / 2
}
