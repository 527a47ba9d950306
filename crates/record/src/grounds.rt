// Why a call is refused, and where. The numbers are those of the table in docs/RULES.md.
ghost use Rattle.std.specs.Prelude.{◌≡◌};
ghost use Rattle.record.specs.Told.{number_of, told, count_told};

use crate::{CountAnswer, Refusal};
use std::fmt;

// The grounds of the rules.
#[derive(Clone, Copy, Debug, PartialEq, Eq)]
pub enum Ground {
    // Too few samples, or a count of 0.
    TooFew,
    // Too many samples, readings or counts.
    TooMany,
    // A value outside its range, at the index of the first.
    OutOfRange,
    // A float reading that is not a number.
    NotANumber,
    // A factor outside its range.
    BadFactor,
    // A lent buffer that is too short.
    NoRoom,
    // A meter that does not hold together.
    BadMeter,
    // A deviation of nought where a ratio or a bar is asked.
    NoDeviation,
    // Bad bytes or a bad length of a file.
    BadFile,
    // A channel above 15.
    BadChannel,
}

// A ground, and the place that it is told with.
#[derive(Clone, Copy, Debug, PartialEq, Eq)]
pub struct Refused {
    pub why: Ground,
    pub place: u64,
}

impl Ground {
    // The refusal at a place.
    pub fn at(self, place: u64) -> Refused
        ensures { result ≡ record { why = self; place = place } }
    {
        Refused { why: self, place }
    }
}

// A ground's number.
impl From<Ground> for u64 {
    ghost from_gives = { λ g number. number ≡ number_of g };

    fn from(ground: Ground) -> u64 {
        match ground {
            Ground::TooFew => 1,
            Ground::TooMany => 2,
            Ground::OutOfRange => 3,
            Ground::NotANumber => 4,
            Ground::BadFactor => 5,
            Ground::NoRoom => 6,
            Ground::BadMeter => 7,
            Ground::NoDeviation => 8,
            Ground::BadFile => 9,
            Ground::BadChannel => 11,
        }
    }
}

// A check as its number and place.
impl From<Result<(), Refused>> for Refusal {
    ghost from_gives = { λ check refusal. refusal ≡ told check };

    fn from(check: Result<(), Refused>) -> Refusal {
        match check {
            Ok(()) => Refusal {
                number: 0,
                place: 0,
            },
            Err(refused) => Refusal {
                number: refused.why.into(),
                place: refused.place,
            },
        }
    }
}

// How many entries were written, or the refusal and nought.
impl From<Result<u64, Refused>> for CountAnswer {
    ghost from_gives = { λ written answer. answer ≡ count_told written };

    fn from(written: Result<u64, Refused>) -> CountAnswer {
        match written {
            Ok(count) => CountAnswer {
                number: 0,
                place: 0,
                count,
            },
            Err(refused) => crate::refused_count(refused.why.into(), refused.place),
        }
    }
}

// A ground in words.
impl fmt::Display for Ground {
    fn fmt<W: fmt::Write>(&self, f: &mut fmt::Formatter<W>) -> fmt::Result {
        f.write_str(match self {
            Ground::TooFew => "too few samples, counts or intervals",
            Ground::TooMany => "too many samples, readings, counts or intervals",
            Ground::OutOfRange => "a value outside its range",
            Ground::NotANumber => "a reading that is not a number",
            Ground::BadFactor => "a factor outside its range",
            Ground::NoRoom => "a lent buffer or ring that is too short",
            Ground::BadMeter => "a meter that does not hold together",
            Ground::NoDeviation => "a deviation of nought where a ratio or a bar is asked",
            Ground::BadFile => "bad bytes or a bad length in a file",
            Ground::BadChannel => "a channel above 15",
        })
    }
}
