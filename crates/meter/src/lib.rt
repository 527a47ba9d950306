// The running meter: the Allan and modified sums of a stream with its gaps, sample by sample, at the same cost whatever the factor. The ring that holds
// the latest samples is lent. Fractions, deviations and whole records are left to others.

#![tactic(auto)]

mod arithmetic;
mod slots;
mod tests;

ghost use Rattle.std.specs.Prelude.{◌≡◌, leb};
ghost use Rattle.wide.specs.Wide.{value};
ghost use Rattle.meter.specs.Meter.{started};
ghost use Rattle.sums.specs.Answers.{part_of};
ghost use Rattle.sums.specs.Told.{part_told};
ghost use Rattle.meter.specs.Told.{meter_told, report_told};
ghost use Rattle.meter.specs.declared.Meter.{Meter};
ghost use Rattle.meter.specs.Answers.{start_answer, sample_answer, ring_left, gap_answer, report_answer};

use arithmetic::Ready;
use record::{Ground, Refused};
use slots::Slots;
use sums::{Part, Sum};
use wide::Wide;

// The factor m, the accepted count n, how many of these are in the present stretch, the term counts K and C, the sums A and B, and the sum of the latest
// second differences of the stretch, all of them up to m.
#[repr(C)]
#[derive(Clone, Copy)]
pub struct Meter {
    pub m: u64,
    pub n: u64,
    pub stretch: u64,
    pub k: u64,
    pub c: u64,
    pub a: Wide,
    pub b: Wide,
    pub window: i64,
}

// A meter as C is given it back: the new one, or the one that came where the call is refused.
#[repr(C)]
#[derive(Clone, Copy)]
pub struct MeterAnswer {
    pub number: u64,
    pub place: u64,
    pub meter: Meter,
}

// The two sums of a stream, each the total over its stretches, where it has a term.
#[derive(Clone, Copy)]
pub struct Sums {
    pub allan: Option<Sum>,
    pub modified: Option<Sum>,
}

// The same as C is told it.
#[repr(C)]
#[derive(Clone, Copy)]
pub struct Report {
    pub number: u64,
    pub place: u64,
    pub allan: Part,
    pub modified: Part,
}

impl Meter {
    // The meter's own limits.
    pub const LARGEST_FACTOR: u64 = 10922;

    pub const MOST_SAMPLES: u64 = 32768;

    // A fresh meter at factor m. Refuses 5, then 6 for a ring shorter than 3m.
    pub fn new(m: u64, ring: &[i64]) -> Result<Meter, Refused>
        ensures { (old : Meter) → meter_told old result ≡ start_answer old m ring.now }
    {
        if m < 1 {
            return Err(Ground::BadFactor.at(0));
        }
        if Meter::LARGEST_FACTOR < m {
            return Err(Ground::BadFactor.at(0));
        }
        if (ring.len() as u64) < 3 * m {
            return Err(Ground::NoRoom.at(0));
        }
        Ok(fresh(m))
    }

    // The meter with one sample more, which is written to its own slot of the ring. Refuses 7, 2, then 3.
    pub fn with_sample(self, ring: &mut [i64], x: i64) -> Result<Meter, Refused>
        ensures { (meter_told self result ≡ sample_answer self ring.old x) × (ring.new ≡ ring_left self ring.old x) }
    {
        tests::check_slots(self, ring)?;
        let m = self.m;
        let own = self.stretch % (3 * m);
        let slots = Slots {
            meter: self,
            ring,
            own,
        };
        let one = slots.old(m, 2 * m);
        let two = slots.old(2 * m, 2 * m);
        let three = slots.old(3 * m, 3 * m);
        tests::check_sample(self.n, one, two, three, x)?;
        let ready = Ready { meter: self };
        let next = ready.with_sample(one, two, three, x);
        ring[own as usize] = x;
        Ok(next)
    }

    // The meter with a new stretch begun: no second difference and no window spans the gap. Refuses 7.
    pub fn after_gap(self) -> Result<Meter, Refused>
        ensures { meter_told self result ≡ gap_answer self }
    {
        tests::check(self)?;
        Ok(arithmetic::with_gap(self))
    }

    // A with K and B with C, each where its term count is not 0. Refuses 7.
    pub fn sums(self) -> Result<Sums, Refused>
        ensures { report_told result ≡ report_answer self }
    {
        tests::check(self)?;
        Ok(Sums {
            allan: part(self.a, self.k),
            modified: part(self.b, self.c),
        })
    }

    // A fresh meter at factor m in place of this one, as C is told it.
    // Told here and not by the conversion, beside which a start takes half as long again.
    pub fn start(self, m: u64, ring: &[i64]) -> MeterAnswer
        ensures { result ≡ start_answer self m ring.now }
    {
        match Meter::new(m, ring) {
            Ok(meter) => MeterAnswer {
                number: 0,
                place: 0,
                meter,
            },
            Err(refused) => MeterAnswer {
                number: refused.why.into(),
                place: refused.place,
                meter: self,
            },
        }
    }

    // The meter with one sample more, as C is told it.
    pub fn sample(self, ring: &mut [i64], x: i64) -> MeterAnswer
        ensures { (result ≡ sample_answer self ring.old x) × (ring.new ≡ ring_left self ring.old x) }
    {
        MeterAnswer::from((self.with_sample(ring, x), self))
    }

    // The meter after a gap, as C is told it.
    pub fn gap(self) -> MeterAnswer
        ensures { result ≡ gap_answer self }
    {
        MeterAnswer::from((self.after_gap(), self))
    }

    // The sums as C is told them.
    pub fn report(self) -> Report
        ensures { result ≡ report_answer self }
    {
        Report::from(self.sums())
    }
}

// The new meter, or the refusal and the meter as it came.
impl From<(Result<Meter, Refused>, Meter)> for MeterAnswer {
    ghost from_gives = { λ call answer. answer ≡ meter_told call.1 call.0 };

    fn from(call: (Result<Meter, Refused>, Meter)) -> MeterAnswer {
        let (new, old) = call;
        match new {
            Ok(meter) => MeterAnswer {
                number: 0,
                place: 0,
                meter,
            },
            Err(refused) => MeterAnswer {
                number: refused.why.into(),
                place: refused.place,
                meter: old,
            },
        }
    }
}

impl From<Result<Sums, Refused>> for Report {
    ghost from_gives = { λ sums report. report ≡ report_told sums };

    fn from(sums: Result<Sums, Refused>) -> Report {
        match sums {
            Ok(sums) => Report {
                number: 0,
                place: 0,
                allan: sums.allan.into(),
                modified: sums.modified.into(),
            },
            Err(refused) => Report {
                number: refused.why.into(),
                place: refused.place,
                allan: sums::NO_PART,
                modified: sums::NO_PART,
            },
        }
    }
}

// A meter that has taken no sample.
fn fresh(m: u64) -> Meter
    ensures { result ≡ started m }
{
    Meter {
        m,
        n: 0,
        stretch: 0,
        k: 0,
        c: 0,
        a: Wide { hi: 0, lo: 0 },
        b: Wide { hi: 0, lo: 0 },
        window: 0,
    }
}

// A sum with its count, if it has a term.
fn part(total: Wide, count: u64) -> Option<Sum>
    ensures { part_told result ≡ part_of (leb 1 count) (value total) count }
{
    if count < 1 {
        return None;
    }
    Some(Sum { total, count })
}
