// Sixteen meters that share one lent ring: a call on a channel is the meter's own call with the channel's part as its ring. What a meter does is left to
// crate meter.

#![tactic(auto)]

ghost use Rattle.std.specs.Prelude.{◌≡◌, ◌+◌, ◌*◌, ◌/◌, ◌≤◌, ◌<◌, MatchResult};
ghost use Rattle.record.specs.declared.grounds.Ground.TheVariants.{BadChannel};
ghost use Rattle.meter.specs.Told.{meter_told, report_told};
ghost use Rattle.meter.specs.declared.Meter.{Meter};
ghost use Rattle.channels.specs.Shares.{meter_of, with_meter};
ghost use Rattle.channels.specs.Answers.{channel_start_answer, channel_sample_answer, channel_ring_left, channel_gap_answer, channel_report_answer};
ghost use Rattle.channels.specs.Answers.{bank_start_answer, bank_sample_answer, bank_ring_left, bank_gap_answer, bank_report_answer};
ghost use Rattle.channels.specs.Told.{bank_told};

use meter::{Meter, MeterAnswer, Report, Sums};
use record::{Ground, Refused};

// The channels are numbered from 0 to 15.
pub const LAST_CHANNEL: u64 = 15;
// How many there are.
pub const CHANNELS: usize = 16;

// A meter for each channel.
#[derive(Clone, Copy)]
pub struct Bank {
    pub meters: [Meter; 16],
}

// A bank as it is told: with the channel's new meter, or as it came where the call is refused.
#[derive(Clone, Copy)]
pub struct BankAnswer {
    pub number: u64,
    pub place: u64,
    pub bank: Bank,
}

impl Bank {
    // The bank with a fresh meter at factor m for a channel. Refuses 11, 5, then 6 for a share shorter than 3m.
    pub fn with_fresh(self, channel: u64, m: u64, ring: &[i64]) -> Result<Bank, Refused>
        ensures { bank_told self result ≡ bank_start_answer self channel m ring.now }
    {
        let on = Channel::new(channel)?;
        let next = fresh_on(channel, m, ring)?;
        Ok(self.with_meter(on, next))
    }

    // The bank with one sample more for a channel, written to its slot of the channel's part. Refuses 11, 7, 2, then 3.
    pub fn with_sample(self, channel: u64, ring: &mut [i64], x: i64) -> Result<Bank, Refused>
        ensures { (bank_told self result ≡ bank_sample_answer self channel ring.old x) × (ring.new ≡ bank_ring_left self channel ring.old x) }
    {
        let on = Channel::new(channel)?;
        let next = with_sample_on(self.meter(on), channel, ring, x)?;
        Ok(self.with_meter(on, next))
    }

    // The bank with a new stretch begun on a channel. Refuses 11, then 7.
    pub fn after_gap(self, channel: u64) -> Result<Bank, Refused>
        ensures { bank_told self result ≡ bank_gap_answer self channel }
    {
        let paused = Channel::new(channel)?;
        let next = after_gap_on(self.meter(paused), channel)?;
        Ok(self.with_meter(paused, next))
    }

    // Both sums of a channel. Refuses 11, then 7.
    pub fn sums(self, channel: u64) -> Result<Sums, Refused>
        ensures { report_told result ≡ bank_report_answer self channel }
    {
        let on = Channel::new(channel)?;
        sums_on(self.meter(on), channel)
    }

    // The bank with a fresh meter for a channel, as it is told.
    pub fn start(self, channel: u64, m: u64, ring: &[i64]) -> BankAnswer
        ensures { result ≡ bank_start_answer self channel m ring.now }
    {
        BankAnswer::from((self.with_fresh(channel, m, ring), self))
    }

    // The bank with one sample more for a channel, as it is told.
    pub fn sample(self, channel: u64, ring: &mut [i64], x: i64) -> BankAnswer
        ensures { (result ≡ bank_sample_answer self channel ring.old x) × (ring.new ≡ bank_ring_left self channel ring.old x) }
    {
        BankAnswer::from((self.with_sample(channel, ring, x), self))
    }

    // The bank after a gap on a channel, as it is told.
    pub fn gap(self, channel: u64) -> BankAnswer
        ensures { result ≡ bank_gap_answer self channel }
    {
        BankAnswer::from((self.after_gap(channel), self))
    }

    // Both sums of a channel, as they are told.
    pub fn report(self, channel: u64) -> Report
        ensures { result ≡ bank_report_answer self channel }
    {
        Report::from(self.sums(channel))
    }

    // The meter of a channel.
    fn meter(self, on: Channel) -> Meter
        ensures { result ≡ meter_of self on.index }
    {
        self.meters[on.index]
    }

    // The bank with another meter for a channel.
    fn with_meter(self, on: Channel, next: Meter) -> Bank
        ensures { result ≡ with_meter self on.index next }
    {
        let mut meters = self.meters;
        meters[on.index] = next;
        Bank { meters }
    }
}

// The new bank, or the refusal and the bank as it came.
impl From<(Result<Bank, Refused>, Bank)> for BankAnswer {
    ghost from_gives = { λ call answer. answer ≡ bank_told call.1 call.0 };

    fn from(call: (Result<Bank, Refused>, Bank)) -> BankAnswer {
        let (new, old) = call;
        match new {
            Ok(bank) => BankAnswer {
                number: 0,
                place: 0,
                bank,
            },
            Err(refused) => BankAnswer {
                number: refused.why.into(),
                place: refused.place,
                bank: old,
            },
        }
    }
}

// A fresh meter at factor m on a channel. Refuses 11, 5, then 6 for a share shorter than 3m.
pub fn fresh_on(channel: u64, m: u64, ring: &[i64]) -> Result<Meter, Refused>
    ensures { (old : Meter) → meter_told old result ≡ channel_start_answer old channel m ring.now }
{
    let on = Channel::new(channel)?;
    on.fresh(m, ring)
}

// The meter with one sample more, which is written to its slot of the channel's part of the ring. Refuses 11, 7, 2, then 3.
pub fn with_sample_on(
    meter: Meter,
    channel: u64,
    ring: &mut [i64],
    x: i64,
) -> Result<Meter, Refused>
    ensures { (meter_told meter result ≡ channel_sample_answer meter channel ring.old x) × (ring.new ≡ channel_ring_left meter channel ring.old x) }
{
    let on = Channel::new(channel)?;
    on.with_sample(meter, ring, x)
}

// The meter with a new stretch begun. Refuses 11, then 7.
pub fn after_gap_on(meter: Meter, channel: u64) -> Result<Meter, Refused>
    ensures { meter_told meter result ≡ channel_gap_answer meter channel }
{
    Channel::new(channel)?;
    meter.after_gap()
}

// Both sums of the meter. Refuses 11, then 7.
pub fn sums_on(meter: Meter, channel: u64) -> Result<Sums, Refused>
    ensures { report_told result ≡ channel_report_answer meter channel }
{
    Channel::new(channel)?;
    meter.sums()
}

// A fresh meter on a channel, in place of an old one, as C is told it.
// Told here and not by the conversion, beside which a start takes half as long again.
pub fn channel_start(old: Meter, channel: u64, m: u64, ring: &[i64]) -> MeterAnswer
    ensures { result ≡ channel_start_answer old channel m ring.now }
{
    match fresh_on(channel, m, ring) {
        Ok(meter) => MeterAnswer {
            number: 0,
            place: 0,
            meter,
        },
        Err(refused) => MeterAnswer {
            number: refused.why.into(),
            place: refused.place,
            meter: old,
        },
    }
}

// The meter with one sample more on a channel, as C is told it.
pub fn channel_sample(meter: Meter, channel: u64, ring: &mut [i64], x: i64) -> MeterAnswer
    ensures { (result ≡ channel_sample_answer meter channel ring.old x) × (ring.new ≡ channel_ring_left meter channel ring.old x) }
{
    MeterAnswer::from((with_sample_on(meter, channel, ring, x), meter))
}

// The meter after a gap, as C is told it.
pub fn channel_gap(meter: Meter, channel: u64) -> MeterAnswer
    ensures { result ≡ channel_gap_answer meter channel }
{
    MeterAnswer::from((after_gap_on(meter, channel), meter))
}

// Both sums of the meter, as C is told them.
pub fn channel_report(meter: Meter, channel: u64) -> Report
    ensures { result ≡ channel_report_answer meter channel }
{
    match Channel::new(channel) {
        Ok(_) => meter.report(),
        Err(refused) => Report::from(Err(refused)),
    }
}

// One of the sixteen channels.
#[derive(Clone, Copy)]
struct Channel {
    index: usize,
    ghost within: { index ≤ 15 },
}

impl Channel {
    // The channel of a number. Refuses 11.
    fn new(channel: u64) -> Result<Channel, Refused>
        ensures { MatchResult result (λ on. on.index ≡ channel) (λ e. (15 < channel) × (e ≡ record { why = BadChannel; place = 0 })) }
    {
        if LAST_CHANNEL < channel {
            return Err(Ground::BadChannel.at(0));
        }
        Ok(Channel {
            index: channel as usize,
        })
    }

    // Where its part of a ring of so many entries begins, and where it ends.
    fn span(self, length: usize) -> (usize, usize)
        ensures { (result.0 ≡ self.index * (length / 16)) × (result.1 ≡ self.index * (length / 16) + length / 16) }
    {
        let share = length / CHANNELS;
        let from = self.index * share;
        (from, from + share)
    }

    // A fresh meter at factor m. Refuses 5, then 6 for a share shorter than 3m.
    fn fresh(self, m: u64, ring: &[i64]) -> Result<Meter, Refused>
        ensures { (old : Meter) → meter_told old result ≡ channel_start_answer old self.index m ring.now }
    {
        let (from, to) = self.span(ring.len());
        Meter::new(m, &ring[from..to])
    }

    // The meter with one sample more, which is written to its slot of the channel's part of the ring. Refuses 7, 2, then 3.
    fn with_sample(self, meter: Meter, ring: &mut [i64], x: i64) -> Result<Meter, Refused>
        ensures { (meter_told meter result ≡ channel_sample_answer meter self.index ring.old x) × (ring.new ≡ channel_ring_left meter self.index ring.old x) }
    {
        let (from, to) = self.span(ring.len());
        meter.with_sample(&mut ring[from..to], x)
    }
}
