// Prefixes by the upper 64 bits of an address, the lower ones being zero. Every function takes any length.
ghost use Rattle.std.specs.Prelude.{◌≡◌, ◌-◌, ◌*◌, ◌^◌, ◌<◌, eqb};
ghost use Rattle.rules.specs.Prefix.{front, zero_after, overlap, inside};
ghost use Rattle.prefix.specs.Upper.{half_of};

// A prefix by the upper half of its bits, with its length.
#[derive(Clone, Copy, Debug, PartialEq, Eq)]
pub struct Half {
    pub upper: u64,
    pub length: u64,
}

// Equal in the first m bits.
pub fn same_front(p: u64, q: u64, m: u64) -> bool
    ensures { result ≡ eqb (front (p * 2 ^ 64) m) (front (q * 2 ^ 64) m) }
{
    if m == 0 {
        return true;
    }
    if 64 <= m {
        return p == q;
    }
    p >> (64 - m) == q >> (64 - m)
}

impl Half {
    // One lies in the other.
    pub fn overlaps(self, other: Half) -> bool
        ensures { result ≡ overlap (half_of self) (half_of other) }
    {
        if self.length < other.length {
            same_front(self.upper, other.upper, self.length)
        } else {
            same_front(self.upper, other.upper, other.length)
        }
    }

    // It lies in the other.
    pub fn inside(self, other: Half) -> bool
        ensures { result ≡ inside (half_of self) (half_of other) }
    {
        if self.length < other.length {
            false
        } else {
            same_front(self.upper, other.upper, other.length)
        }
    }

    // The bits after its length are zero.
    pub fn is_aligned(self) -> bool
        ensures { result ≡ zero_after (half_of self) }
    {
        if self.length == 0 {
            return self.upper == 0;
        }
        if 64 <= self.length {
            return true;
        }
        let s = 64 - self.length;
        self.upper >> s << s == self.upper
    }
}
