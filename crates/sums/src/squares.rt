// Squares of numbers that are raised so that none is below nought, worked in words: a machine adds up several at a time.
ghost use Rattle.std.specs.Prelude.{◌≡◌, ◌+◌, ◌-◌, ◌*◌, ◌/◌, ◌%◌, ◌^◌, ◌≤◌, ◌<◌};
ghost use Rattle.wide.specs.Wide.{value, halves};

use wide::Wide;

// Sums over numbers u, with h and l the parts of u above and below 2^22: of h h, of h l, of l l, and of u itself.
#[derive(Clone, Copy)]
pub(crate) struct Parts {
    pub high: u64,
    pub cross: u64,
    pub low: u64,
    pub raised: u64,
}

// The sums with one number more.
pub(crate) fn with_number(parts: Parts, u: u64) -> Parts
    requires { (u ≤ 2 ^ 43) × (parts.high ≤ 2 ^ 60) × (parts.cross ≤ 2 ^ 60) × (parts.low ≤ 2 ^ 60) × (parts.raised ≤ 2 ^ 60) }
    ensures { result ≡ record { high = parts.high + u / 2 ^ 22 * (u / 2 ^ 22); cross = parts.cross + u / 2 ^ 22 * (u % 2 ^ 22); low = parts.low + u % 2 ^ 22 * (u % 2 ^ 22); raised = parts.raised + u } }
{
    // The remainder changes nothing; it shows the compiler that one multiplication of half a word is enough.
    let high = u / PART % HALF_WORD;
    let low = u % PART;
    Parts {
        high: parts.high + high * high,
        cross: parts.cross + high * low,
        low: parts.low + low * low,
        raised: parts.raised + u,
    }
}

// The sum of the squares, from the sums by parts.
pub(crate) fn joined(parts: Parts) -> Wide
    ensures { result ≡ halves (parts.high * 2 ^ 44 + parts.cross * 2 ^ 23 + parts.low) }
{
    let upper = wide::sum(
        wide::product(parts.high, HIGH_WEIGHT),
        wide::product(parts.cross, CROSS_WEIGHT),
    );
    let low = parts.low;
    wide::sum(upper, Wide::from(low))
}

// The sum of squares of count numbers, from the sum of squares and the sum of the numbers raised by m * 2^42.
pub(crate) fn lowered(squares: Wide, raised: u64, m: u64, count: u64) -> Wide
    requires { (m ≤ 10922) × (count ≤ 32768) × (value squares + count * (m * m * 2 ^ 84) < 2 ^ 126) × (raised * (m * 2 ^ 43) ≤ value squares + count * (m * m * 2 ^ 84)) }
    ensures { result ≡ halves (value squares + count * (m * m * 2 ^ 84) - raised * (m * 2 ^ 43)) }
{
    // With c = m * 2^42 and u = z + c, z z is u u + c c - 2 c u; c c is m * m * 2^20 in the high half.
    let more = Wide {
        hi: count * (m * m) * 1048576,
        lo: 0,
    };
    wide::difference(
        wide::sum(squares, more),
        wide::product(raised, m * 8796093022208),
    )
}

// What divides a number's parts: 2^22.
const PART: u64 = 4194304;
// What a product of two high parts stands for: 2^44.
const HIGH_WEIGHT: u64 = 17592186044416;
// What a product of a high and a low part stands for, which comes twice: 2^23.
const CROSS_WEIGHT: u64 = 8388608;
// Half a word: 2^32.
const HALF_WORD: u64 = 4294967296;
