// The running meter, by value in and out; its ring is lent, to it alone or to sixteen channels.
ghost use Rattle.std.specs.Prelude.{◌≡◌};
ghost use Rattle.meter.specs.Answers.{start_answer, sample_answer, ring_left, gap_answer, report_answer};
ghost use Rattle.channels.specs.Answers.{channel_start_answer, channel_sample_answer, channel_ring_left, channel_gap_answer, channel_report_answer};

use meter::{Meter, MeterAnswer, Report};
use record::Ground;

// A fresh meter at factor m in place of an old one.
#[unsafe(no_mangle)]
pub extern "C" fn plg_meter_start(old: Meter, m: u64, ring: &[i64]) -> MeterAnswer
    ensures { result ≡ start_answer old m ring.now }
{
    old.start(m, ring)
}

// The meter with one sample more.
#[unsafe(no_mangle)]
pub extern "C" fn plg_meter_sample(meter: Meter, ring: &mut [i64], x: i64) -> MeterAnswer
    ensures { (result ≡ sample_answer meter ring.old x) × (ring.new ≡ ring_left meter ring.old x) }
{
    meter.sample(ring, x)
}

// The meter after a gap in the stream.
#[unsafe(no_mangle)]
pub extern "C" fn plg_meter_gap(meter: Meter) -> MeterAnswer
    ensures { result ≡ gap_answer meter }
{
    meter.gap()
}

// Both sums of the samples since the start, each the total over its stretches.
#[unsafe(no_mangle)]
pub extern "C" fn plg_meter_report(meter: Meter) -> Report
    ensures { result ≡ report_answer meter }
{
    meter.report()
}

// A fresh meter at factor m on a channel, in place of an old one.
#[unsafe(no_mangle)]
pub extern "C" fn plg_channel_start(old: Meter, channel: u64, m: u64, ring: &[i64]) -> MeterAnswer
    ensures { result ≡ channel_start_answer old channel m ring.now }
{
    channels::channel_start(old, channel, m, ring)
}

// The meter of a channel with one sample more.
#[unsafe(no_mangle)]
pub extern "C" fn plg_channel_sample(
    meter: Meter,
    channel: u64,
    ring: &mut [i64],
    x: i64,
) -> MeterAnswer
    ensures { (result ≡ channel_sample_answer meter channel ring.old x) × (ring.new ≡ channel_ring_left meter channel ring.old x) }
{
    if channels::LAST_CHANNEL < channel {
        return MeterAnswer {
            number: Ground::BadChannel.into(),
            place: 0,
            meter,
        };
    }
    // Not by channel_sample: beside it every plg_meter_sample takes a seventh longer, since the compiler then sets the meter's sample apart.
    let share = ring.len() / channels::CHANNELS;
    let from = channel as usize * share;
    let to = from + share;
    plg_meter_sample(meter, &mut ring[from..to], x)
}

// The meter of a channel after a gap in its stream.
#[unsafe(no_mangle)]
pub extern "C" fn plg_channel_gap(meter: Meter, channel: u64) -> MeterAnswer
    ensures { result ≡ channel_gap_answer meter channel }
{
    channels::channel_gap(meter, channel)
}

// Both sums of a channel's samples since its start.
#[unsafe(no_mangle)]
pub extern "C" fn plg_channel_report(meter: Meter, channel: u64) -> Report
    ensures { result ≡ channel_report_answer meter channel }
{
    channels::channel_report(meter, channel)
}
