// The slots of the ring: sample number k of a stretch lies in slot k mod 3m. The next sample's own slot takes a remainder, an earlier one's a comparison.
ghost use Rattle.std.specs.Prelude.{◌≡◌, true, cond, ◌+◌, ◌-◌, ◌*◌, ◌%◌, ◌≤◌, ◌<◌, leb, pos, length};
ghost use Rattle.meter.specs.Meter.{holds_together, slot as slot_of};

use crate::Meter;

// The ring of a meter that holds together, not shorter than 3m, with the slot of the next sample.
#[derive(Clone, Copy)]
pub(crate) struct Slots<'a> {
    pub meter: Meter,
    pub ring: &'a [i64],
    pub own: u64,
    ghost together: { holds_together meter ≡ true },
    ghost long: { 3 * meter.m ≤ length ring.now },
    ghost own_is: { own ≡ meter.stretch % (3 * meter.m) },
}

impl<'a> Slots<'a> {
    // The sample that came so far back from the next one of the stretch, once the stretch has as many as are due; 0 before.
    pub(crate) fn old(&self, back: u64, due: u64) -> i64
        requires { (back ≤ 3 * self.now.meter.m) × (back ≤ due) }
        ensures { result ≡ cond (leb due self.now.meter.stretch) (slot_of self.now.meter self.now.ring.now (self.now.meter.stretch - back)) (pos 0) }
    {
        if self.meter.stretch < due {
            return 0;
        }
        self.slot(back)
    }

    // That sample, from its slot.
    fn slot(&self, back: u64) -> i64
        requires { (back ≤ 3 * self.now.meter.m) × (back ≤ self.now.meter.stretch) }
        ensures { result ≡ slot_of self.now.meter self.now.ring.now (self.now.meter.stretch - back) }
    {
        let at = earlier(self.own, 3 * self.meter.m, back) as usize;
        self.ring[at]
    }
}

// The slot so far back from another, once round where that is before the first.
fn earlier(own: u64, slots: u64, back: u64) -> u64
    requires { (own < slots) × (slots ≤ 32766) × (back ≤ slots) }
    ensures { result ≡ cond (leb back own) (own - back) (own + slots - back) }
{
    if own < back {
        return own + slots - back;
    }
    own - back
}
