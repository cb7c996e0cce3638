// Sixteen bytes by their upper half, the lower being zero; and the last /64 of a delegation.
ghost use Rattle.std.specs.Prelude.{◌≡◌, true, ◌*◌, ◌^◌, ◌≤◌, eqb};
ghost use Rattle.rules.specs.Words.{num};
ghost use Rattle.rules.specs.Prefix.{zero_after, last64};
ghost use Rattle.prefix.specs.Upper.{upper};

// The sixteen bytes whose upper half is p.
pub fn of_upper(p: u64) -> [u8; 16]
    ensures { num result ≡ p * 2 ^ 64 }
{
    let mut q = [0u8; 16];
    cells::put(&mut q, 0, 8, p);
    q
}

// Whether q is they.
pub fn is_upper(q: [u8; 16], p: u64) -> bool
    ensures { result ≡ eqb (num q) (p * 2 ^ 64) }
{
    (super::whole::high(q) == p) & (super::whole::low(q) == 0)
}

// The upper half of the last /64 of p of length a.
pub fn last64(p: u64, a: u64) -> u64
    requires { (a ≤ 64) × (zero_after (upper p a) ≡ true) }
    ensures { upper result 64 ≡ last64 (upper p a) }
{
    if a == 0 {
        return 0xFFFF_FFFF_FFFF_FFFF;
    }
    p + ((1u64 << (64 - a)) - 1)
}
