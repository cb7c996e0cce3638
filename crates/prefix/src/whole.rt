// Whole prefixes: sixteen bytes, whose number is the 128 bits. Each is judged by its two halves.
ghost use Rattle.std.specs.Prelude.{◌≡◌, ◌+◌, ◌-◌, ◌*◌, ◌/◌, ◌%◌, ◌^◌, ◌<◌, eqb};
ghost use Rattle.rules.specs.Words.{num};
ghost use Rattle.rules.specs.Prefix.{prefix, front, zero_after, inside};
ghost use Rattle.prefix.specs.Upper.{half_of};

use super::half::{Half, same_front};

// The upper 64 bits, and the lower.
pub fn high(q: [u8; 16]) -> u64
    ensures { result ≡ num q / 2 ^ 64 }
{
    cells::get(&q, 0, 8)
}

pub fn low(q: [u8; 16]) -> u64
    ensures { result ≡ num q % 2 ^ 64 }
{
    cells::get(&q, 8, 8)
}

// Equal in the first a bits: h above l, and k above m.
fn same_first(h: u64, l: u64, k: u64, m: u64, a: u64) -> bool
    ensures { result ≡ eqb (front (h * 2 ^ 64 + l) a) (front (k * 2 ^ 64 + m) a) }
{
    if a < 64 {
        return same_front(h, k, a);
    }
    (h == k) & same_front(l, m, a - 64)
}

pub fn same_front16(p: [u8; 16], q: [u8; 16], a: usize) -> bool
    ensures { result ≡ eqb (front (num p) a) (front (num q) a) }
{
    same_first(high(p), low(p), high(q), low(q), a as u64)
}

// Equal in all bits.
pub fn same16(p: [u8; 16], q: [u8; 16]) -> bool
    ensures { result ≡ eqb (num p) (num q) }
{
    same_front16(p, q, 128)
}

// The bits after the first a are zero.
pub fn zero_after16(q: [u8; 16], a: usize) -> bool
    ensures { result ≡ zero_after (prefix (num q) a) }
{
    let m = a as u64;
    if m < 64 {
        return Half {
            upper: high(q),
            length: m,
        }
        .is_aligned()
            & (low(q) == 0);
    }
    Half {
        upper: low(q),
        length: m - 64,
    }
    .is_aligned()
}

// q of length n lies in p.
pub fn inside16(q: [u8; 16], n: usize, p: Half) -> bool
    ensures { result ≡ inside (prefix (num q) n) (half_of p) }
{
    (p.length <= n as u64) & same_first(high(q), low(q), p.upper, 0, p.length)
}
