// Whole numbers rounded to fewer digits.
ghost use Rattle.std.specs.Prelude.{◌≤◌};

// n / d to the nearest whole number, a half up.
pub(crate) fn rounded(n: u64, d: u64) -> u64
    requires { 1 ≤ d }
{
    let whole = n / d;
    let rest = n % d;
    if rest < d - rest { whole } else { whole + 1 }
}
