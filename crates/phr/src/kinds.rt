// The kinds of a file, and what each allows.
ghost use Rattle.std.specs.Prelude.{◌≡◌, ◌^◌, if◌then◌else◌, nat_eq};
ghost use Rattle.phr.specs.File.{most_values, value_in_range, start_fits};
ghost use Rattle.phr.specs.Kinds.{number_of_kind, OfNumber};

use record::{Ground, Refused};

// What the values of a file are.
#[derive(Clone, Copy, Debug, PartialEq, Eq)]
pub enum Kind {
    // Phase samples.
    Phase,
    // Frequency values.
    Frequency,
}

// A kind's number.
impl From<Kind> for u64 {
    ghost from_gives = { λ kind number. number ≡ number_of_kind kind };

    fn from(kind: Kind) -> u64 {
        match kind {
            Kind::Phase => 0,
            Kind::Frequency => 1,
        }
    }
}

// The kind that has a number. Refuses 9 at place 5, where a file has it.
impl TryFrom<u64> for Kind {
    type Error = Refused;

    ghost try_from_gives = { OfNumber };

    fn try_from(number: u64) -> Result<Kind, Refused> {
        match number {
            0 => Ok(Kind::Phase),
            1 => Ok(Kind::Frequency),
            _ => Err(Ground::BadFile.at(5)),
        }
    }
}

impl Kind {
    // The most values of the kind.
    pub(crate) fn most_values(self) -> usize
        ensures { result ≡ most_values (number_of_kind self) }
    {
        match self {
            Kind::Phase => record::MOST_SAMPLES as usize,
            Kind::Frequency => record::MOST_READINGS as usize,
        }
    }

    // The upper end of the kind's range.
    pub(crate) fn end(self) -> u64
        ensures { result ≡ (if nat_eq (number_of_kind self) 0 then 2 ^ 40 else 2 ^ 41) }
    {
        match self {
            Kind::Phase => record::LARGEST_SAMPLE as u64,
            Kind::Frequency => record::LARGEST_FREQUENCY as u64,
        }
    }

    // Whether a value lies in the kind's range.
    #[tactic(auto, unfolding(crate::specs::File::value_in_range))]
    pub(crate) fn has(self, z: i64) -> bool
        ensures { result ≡ value_in_range (number_of_kind self) z }
    {
        z.unsigned_abs() <= self.end()
    }

    // Whether the kind can have a start.
    pub(crate) fn can_start(self, start: i64) -> bool
        ensures { result ≡ start_fits (number_of_kind self) start }
    {
        match self {
            Kind::Phase => start == 0,
            Kind::Frequency => true,
        }
    }
}
