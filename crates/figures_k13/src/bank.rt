// Sixteen channels of a bank fed in turn, each at a factor of its own, with a gap on every other one.
use crate::records;
use channels::{Bank, CHANNELS};
use meter::{Meter, Sums};
use record::Refused;
use shown::{OnePart, Output, Refusal};
use std::io;
use wide::Wide;

// How many entries sixteen channels need at factors up to 16.
const RING: usize = 768;
// How many turns there are.
const TURNS: usize = 200;

// A line for each channel, and for one above them.
pub(crate) fn figures(out: Output) -> io::Result<()> {
    let mut samples = [0i64; 32768];
    records::scattered(&mut samples);
    let mut ring = [0i64; RING];
    let bank = fed(started(&ring), &samples, &mut ring);
    for c in 0..=CHANNELS as u64 {
        of_channel(out, c, bank.sums(c))?;
    }
    Ok(())
}

// A bank of which every channel is started, channel c at factor c + 1; channel 16 is refused.
fn started(ring: &[i64; RING]) -> Bank {
    let nothing = Meter {
        m: 0,
        n: 0,
        stretch: 0,
        k: 0,
        c: 0,
        a: Wide { hi: 0, lo: 0 },
        b: Wide { hi: 0, lo: 0 },
        window: 0,
    };
    let mut now = Bank {
        meters: [nothing; 16],
    };
    for c in 0..=CHANNELS as u64 {
        now = now.with_fresh(c, c + 1, ring).unwrap_or(now);
    }
    now
}

// The bank after all turns.
fn fed(bank: Bank, samples: &[i64; 32768], ring: &mut [i64; RING]) -> Bank {
    let mut now = bank;
    for (turn, x) in samples.iter().take(TURNS).enumerate() {
        now = turned(now, *x, turn as u64, ring);
    }
    now
}

// The bank after one turn: each channel takes the sample.
fn turned(bank: Bank, x: i64, turn: u64, ring: &mut [i64; RING]) -> Bank {
    let mut now = bank;
    for c in 0..CHANNELS as u64 {
        now = stepped(now, c, x, turn, ring);
    }
    now
}

// The bank with one sample more on a channel; on an odd channel there is a gap before every fiftieth.
fn stepped(bank: Bank, c: u64, x: i64, turn: u64, ring: &mut [i64; RING]) -> Bank {
    let before = if c % 2 == 1 && turn % 50 == 0 {
        bank.after_gap(c).unwrap_or(bank)
    } else {
        bank
    };
    before.with_sample(c, ring, x).unwrap_or(before)
}

// One line: a channel's sums.
fn of_channel(out: Output, c: u64, sums: Result<Sums, Refused>) -> io::Result<()> {
    match sums {
        Ok(sums) => println!(out;
            "channel {c}:{}{}",
            OnePart::from(sums.allan),
            OnePart::from(sums.modified)
        ),
        Err(refused) => println!(out; "channel {c}: {}", Refusal(refused)),
    }
}
