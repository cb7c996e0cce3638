// Lifetimes (seconds remaining) and moments of the clock. Only a lifetime added to a moment gives a moment.
#![tactic(auto)]

ghost use Rattle.std.specs.Prelude.{◌≡◌, ◌<◌, ◌^◌, max, ltb};
ghost use Rattle.rules.specs.Clock.{plus, extended};

// Seconds; all ones is for ever.
#[derive(Clone, Copy)]
pub struct Lifetime(pub u32);

// Seconds of the clock; all ones is never.
#[derive(Clone, Copy)]
pub struct Moment(pub u64);

impl Moment {
    // The moment a lifetime later.
    pub fn plus(self, v: Lifetime) -> Moment
        requires { self.0 < 2 ^ 48 }
        ensures { result.0 ≡ plus self.0 v.0 }
    {
        if v.0 == 0xFFFF_FFFF {
            return Moment(0xFFFF_FFFF_FFFF_FFFF);
        }
        Moment(self.0 + v.0 as u64)
    }

    // The later of two.
    pub fn later(self, other: Moment) -> Moment
        ensures { result.0 ≡ max self.0 other.0 }
    {
        if self.0 < other.0 { other } else { self }
    }

    // A binding's new end.
    pub fn extend(self, now: Moment, valid: Lifetime) -> Moment
        requires { now.0 < 2 ^ 48 }
        ensures { result.0 ≡ extended self.0 now.0 valid.0 }
    {
        self.later(now.plus(valid))
    }

    pub fn after(self, now: Moment) -> bool
        ensures { result ≡ ltb now.0 self.0 }
    {
        now.0 < self.0
    }
}
