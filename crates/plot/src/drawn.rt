// Drawn numbers: doubles built from the top 53 bits of a whole number.
ghost use Rattle.std.specs.Prelude.{◌≡◌, ◌-◌, ◌*◌, ◌/◌, ◌^◌, ◌≤◌};
ghost use Rattle.std.specs.Float.Ieee.{size};
ghost use Rattle.plot.specs.Drawn.{drawn_number, drawn_answer};
ghost use Rattle.plot.specs.Told.{drawn_told};

use record::{Ground, Refused};

// A double as C is told it; plus zero beside a refusal.
#[repr(C)]
#[derive(Clone, Copy)]
pub struct DrawnAnswer {
    pub number: u64,
    pub place: u64,
    pub value: f64,
}

// The greatest double not above r / 2^20, for r from 1 to 2^63. Refuses 3.
pub fn number(r: u64) -> Result<f64, Refused>
    ensures { drawn_told result ≡ drawn_answer r }
{
    if r < 1 || 9223372036854775808 < r {
        return Err(Ground::OutOfRange.at(0));
    }
    Ok(draw(r))
}

// The same as C is told it.
pub fn drawn_number(r: u64) -> DrawnAnswer
    ensures { result ≡ drawn_answer r }
{
    DrawnAnswer::from(number(r))
}

impl From<Result<f64, Refused>> for DrawnAnswer {
    ghost from_gives = { λ drawn answer. answer ≡ drawn_told drawn };

    fn from(drawn: Result<f64, Refused>) -> DrawnAnswer {
        match drawn {
            Ok(value) => DrawnAnswer {
                number: 0,
                place: 0,
                value,
            },
            Err(refused) => DrawnAnswer {
                number: refused.why.into(),
                place: refused.place,
                value: 0.0,
            },
        }
    }
}

// The double of a number in range.
pub(crate) fn draw(r: u64) -> f64
    requires { (1 ≤ r) × (r ≤ 2 ^ 63) }
    ensures { result ≡ drawn_number r }
{
    std::num::nearest_u64_to_f64(top_digits(r)) / 1048576.0
}

// r with all but its top 53 binary digits cleared.
fn top_digits(r: u64) -> u64
    ensures { result ≡ r / 2 ^ (size r - 53) * 2 ^ (size r - 53) }
{
    let zeros = r.leading_zeros();
    if zeros < 11 {
        let dropped = 11 - zeros;
        return (r >> dropped) << dropped;
    }
    r
}
