// PD Exclude: an excluded prefix written as its length and the bits by which it is longer, and read back.
ghost use Rattle.std.specs.Prelude.{◌≡◌, true, ◌+◌, ◌-◌, ◌*◌, ◌/◌, ◌%◌, ◌^◌, ◌≤◌, ◌<◌, length};
ghost use Rattle.rules.specs.Words.{splice, num, be};
ghost use Rattle.rules.specs.Prefix.{prefix, zero_after, bytes_for, exclude_bytes, encodable, content_ok, unpacked};
ghost use Rattle.laws.specs.Bits.{bit_at, bits8, joined};

// Whether e of length b can be written inside p of length a.
pub fn encodable(p: [u8; 16], a: usize, e: [u8; 16], b: usize) -> bool
    ensures { result ≡ encodable (prefix (num p) a) (prefix (num e) b) }
{
    (a < b) & (b <= 128) & super::whole::same_front16(e, p, a) & super::whole::zero_after16(e, b)
}

// Bit i, zero past the end.
fn bit(q: [u8; 16], i: usize) -> u8
    ensures { (result ≡ bit_at q i) × (result < 2) }
{
    if 128 <= i {
        return 0;
    }
    (q[i / 8] >> (7 - i % 8)) % 2
}

// The eight bits from bit i on, zeros past the end.
fn bits(q: [u8; 16], i: usize) -> u8
    ensures { result ≡ bits8 q i }
{
    if 128 <= i {
        return 0;
    }
    let mut v: u8 = 0;
    for k in 0..8 {
        v = v * 2 + bit(q, i + k);
    }
    v
}

// The content for e of length b inside a prefix of length a: b, and e's bits from a on. The bits after b are zero, so none is masked.
pub fn put_exclude(out: &mut [u8], at: usize, e: [u8; 16], a: usize, b: usize)
    requires { (a ≤ b) × (b ≤ 128) × (at + (1 + bytes_for a b) ≤ length out.old) × (zero_after (prefix (num e) b) ≡ true) }
    ensures { out.new ≡ splice at (exclude_bytes a (prefix (num e) b)) out.old }
{
    out[at] = b as u8;
    let n = (b - a + 7) / 8;
    for j in 0..n {
        out[at + 1 + j] = bits(e, a + 8 * j);
    }
}

// Whether c can follow the excluded length b inside a prefix of length a.
pub fn content_ok(c: &[u8], a: usize, b: usize) -> bool
    ensures { result ≡ content_ok a b c.now }
{
    if b <= a {
        return false;
    }
    if 128 < b {
        return false;
    }
    let n = (b - a + 7) / 8;
    if c.len() != n {
        return false;
    }
    let last = c[n - 1];
    let pad = 8 * n - (b - a);
    // a pad bit of 1 is refused, never dropped
    (last >> pad) << pad == last
}

// Byte k of p's first a bits followed by d's.
fn joined_byte(p: [u8; 16], a: usize, d: [u8; 16], k: usize) -> u8
    requires { (a ≤ 128) × (k < 16) }
    ensures { result ≡ joined (num p) a (num d) / 2 ^ (8 * (16 - (k + 1))) % 256 }
{
    if a <= 8 * k {
        return bits(d, 8 * k - a);
    }
    let x = p[k];
    if 8 * k + 8 <= a {
        return x;
    }
    let s = 8 * k + 8 - a;
    ((x >> s) << s) + (d[0] >> (8 - s))
}

// The excluded prefix of length b that c gives inside p of length a.
pub fn unpack(p: [u8; 16], a: usize, c: &[u8], b: usize) -> [u8; 16]
    requires { content_ok a b c.now ≡ true }
    ensures { result ≡ be 16 (unpacked (prefix (num p) a) b (num c.now)).bits }
{
    let mut d = [0u8; 16];
    cells::copy(&mut d, 0, c);
    let mut q = [0u8; 16];
    for k in 0..16 {
        q[k] = joined_byte(p, a, d, k);
    }
    q
}
