// What a sample and a gap do to a meter that holds together, at the same cost whatever m, n and the stretch are.
ghost use Rattle.std.specs.Prelude.{◌≡◌, true, ◌≤◌, ◌<◌, ◌^◌, pos, nat_abs, ◌+ℤ◌, ◌-ℤ◌, ◌*ℤ◌};
ghost use Rattle.meter.specs.Meter.{holds_together, window_with, with_terms, with_gap};

use crate::Meter;

// A meter that holds together and has room for a sample.
#[derive(Clone, Copy)]
pub(crate) struct Ready {
    pub meter: Meter,
    ghost together: { holds_together meter ≡ true },
    ghost room: { meter.n < 32768 },
}

impl Ready {
    // The meter with sample x, by the samples m, 2m and 3m before it; one that is not due is 0.
    pub(crate) fn with_sample(&self, one: i64, two: i64, three: i64, x: i64) -> Meter
        requires { (nat_abs one ≤ 2 ^ 40) × (nat_abs two ≤ 2 ^ 40) × (nat_abs three ≤ 2 ^ 40) × (nat_abs x ≤ 2 ^ 40) }
        ensures { result ≡ with_terms self.now.meter (x -ℤ pos 2 *ℤ one +ℤ two) (window_with self.now.meter (x -ℤ pos 2 *ℤ one +ℤ two) (one -ℤ pos 2 *ℤ two +ℤ three)) }
    {
        let d = difference(x, one, two);
        let e = difference(one, two, three);
        let window = self.new_window(d, e);
        self.with_terms(d, window)
    }

    // The window with the new difference d once there is one, and without e, which leaves it, once it is full.
    fn new_window(&self, d: i64, e: i64) -> i64
        requires { (nat_abs d ≤ 2 ^ 42) × (nat_abs e ≤ 2 ^ 42) }
        ensures { result ≡ window_with self.now.meter d e }
    {
        let meter = self.meter;
        if meter.stretch < 2 * meter.m {
            return meter.window;
        }
        if meter.stretch < 3 * meter.m {
            return meter.window + d;
        }
        meter.window + d - e
    }

    // The meter with one sample more, the new difference d and the window.
    fn with_terms(&self, d: i64, window: i64) -> Meter
        requires { (nat_abs d ≤ 2 ^ 42) × (nat_abs window ≤ 2 ^ 56) }
        ensures { result ≡ with_terms self.now.meter d window }
    {
        let meter = self.meter;
        let m = meter.m;
        let n = meter.n + 1;
        let s = meter.stretch;
        let next = s + 1;
        let taken = Meter {
            n,
            stretch: next,
            window,
            ..meter
        };
        if s < 2 * m {
            return taken;
        }
        let more = wide::with_square(meter.a, d);
        let terms = meter.k + 1;
        let counted = Meter {
            k: terms,
            a: more,
            ..taken
        };
        if next < 3 * m {
            return counted;
        }
        let windows = meter.c + 1;
        Meter {
            c: windows,
            b: wide::with_square(meter.b, window),
            ..counted
        }
    }
}

// The second difference of three samples, the latest first.
fn difference(x: i64, y: i64, z: i64) -> i64
    requires { (nat_abs x ≤ 2 ^ 40) × (nat_abs y ≤ 2 ^ 40) × (nat_abs z ≤ 2 ^ 40) }
    ensures { result ≡ x -ℤ pos 2 *ℤ y +ℤ z }
{
    x - 2 * y + z
}

// The meter at the beginning of a stretch.
pub(crate) fn with_gap(meter: Meter) -> Meter
    ensures { result ≡ with_gap meter }
{
    Meter {
        stretch: 0,
        window: 0,
        ..meter
    }
}
