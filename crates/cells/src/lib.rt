// Bytes in a lent slice: numbers, copies, comparisons. Each write leaves the slice with one part put in.
#![tactic(auto, using(crate::proofs::Laws::written))]

ghost use Rattle.std.specs.Prelude.{◌≡◌, ◌+◌, ◌-◌, ◌*◌, ◌≤◌, ◌<◌, ◌^◌, eqb, length, replicate};
ghost use Rattle.rules.specs.Words.{all, part, splice, filled, same_bytes, be, num_at};

// The N bytes from `at`.
pub fn bytes_at<const N: usize>(t: &[u8], at: usize) -> [u8; N]
    requires { at + N ≤ length t.now }
    ensures { result ≡ part at N t.now }
{
    let mut d = [0u8; N];
    d.copy_from_slice(&t[at..at + N]);
    d
}

// The number in the n bytes from `at`, highest first.
pub fn get(t: &[u8], at: usize, n: usize) -> u64
    requires { (at + n ≤ length t.now) × (n ≤ 8) }
    ensures { (result ≡ num_at t.now at n) × (result < 2 ^ (8 * n)) }
{
    let mut word = [0u8; 8];
    word[8 - n..].copy_from_slice(&t[at..at + n]);
    u64::from_be_bytes(word)
}

// The n bytes of v into those from `at`, highest first.
pub fn put(t: &mut [u8], at: usize, n: usize, v: u64)
    requires { (at + n ≤ length t.old) × (n ≤ 8) }
    ensures { t.new ≡ splice at (be n v) t.old }
{
    let word = v.to_be_bytes();
    t[at..at + n].copy_from_slice(&word[8 - n..]);
}

// The bytes of s into those from `at`.
pub fn copy(t: &mut [u8], at: usize, s: &[u8])
    requires { at + length s.now ≤ length t.old }
    ensures { t.new ≡ splice at s.now t.old }
{
    t[at..at + s.len()].copy_from_slice(s);
}

// The n bytes from `from` into those from `to`, which is not above `from`: the two may overlap.
pub fn shift(t: &mut [u8], to: usize, from: usize, n: usize)
    requires { (to ≤ from) × (from + n ≤ length t.old) }
    ensures { t.new ≡ splice to (part from n t.old) t.old }
{
    t.copy_within(from..from + n, to);
}

// Zeros into the n bytes from `at`.
pub fn clear(t: &mut [u8], at: usize, n: usize)
    requires { at + n ≤ length t.old }
    ensures { t.new ≡ splice at (replicate n 0) t.old }
{
    t[at..at + n].fill(0);
}

// The bytes of s into those from `at`, and zeros after them: n in all.
pub fn put_filled(t: &mut [u8], at: usize, n: usize, s: &[u8])
    requires { (length s.now ≤ n) × (at + n ≤ length t.old) }
    ensures { t.new ≡ splice at (filled n s.now) t.old }
{
    let k = s.len();
    copy(t, at, s);
    clear(t, at + k, n - k);
}

// Whether the N bytes of t from i are those of s from j. All are compared, so that the compiler takes 16 at once.
fn same_block<const N: usize>(t: &[u8], i: usize, s: &[u8], j: usize) -> bool
    requires { (i + N ≤ length t.now) × (j + N ≤ length s.now) }
    ensures { result ≡ same_bytes (part i N t.now) (part j N s.now) }
{
    let mut same = true;
    for k in 0..N {
        same &= t[i + k] == s[j + k];
    }
    same
}

// Whether the bytes from `at` are those of s. The last ones are compared first: there DUIDs of one maker differ.
pub fn same_bytes(t: &[u8], at: usize, s: &[u8]) -> bool
    requires { at + length s.now ≤ length t.now }
    ensures { result ≡ same_bytes (part at (length s.now) t.now) s.now }
{
    let n = s.len();
    if 32 <= n && !same_block::<32>(t, at + (n - 32), s, n - 32) {
        return false;
    }
    if 8 <= n && !same_block::<8>(t, at + (n - 8), s, n - 8) {
        return false;
    }
    t[at..at + n] == s[..]
}

// Whether the n bytes from `at` are zero. All are looked at, in no order, so that the compiler takes 16 and more at once where
// it knows n.
fn zeros(t: &[u8], at: usize, n: usize) -> bool
    requires { at + n ≤ length t.now }
    ensures { result ≡ all (eqb 0) (part at n t.now) }
{
    t[at..at + n].iter().fold(0, |any, b| any | *b) == 0
}

// The same of at least N bytes and no more than twice as many: the first N and the last leave nothing between.
fn ends_zero<const N: usize>(t: &[u8], at: usize, n: usize) -> bool
    requires { (N ≤ n) × (n ≤ N + N) × (at + n ≤ length t.now) }
    ensures { result ≡ all (eqb 0) (part at n t.now) }
{
    zeros(t, at, N) & zeros(t, at + (n - N), N)
}

// The same of 64 and more, by blocks of 64 as far as they are zero. The last 64 may be some that were looked at before.
fn blocks_zero(t: &[u8], at: usize, n: usize) -> bool
    requires { (64 ≤ n) × (at + n ≤ length t.now) }
    ensures { result ≡ all (eqb 0) (part at n t.now) }
{
    for k in 0..(n - 1) / 64 {
        if !zeros(t, at + 64 * k, 64) {
            return false;
        }
    }
    zeros(t, at + (n - 64), 64)
}

// The same of any number.
pub fn all_zero(t: &[u8], at: usize, n: usize) -> bool
    requires { at + n ≤ length t.now }
    ensures { result ≡ all (eqb 0) (part at n t.now) }
{
    if 64 <= n {
        return blocks_zero(t, at, n);
    }
    if 32 <= n {
        return ends_zero::<32>(t, at, n);
    }
    if 16 <= n {
        return ends_zero::<16>(t, at, n);
    }
    if 8 <= n {
        return ends_zero::<8>(t, at, n);
    }
    zeros(t, at, n)
}

// The same of at most 128 bytes, as the zeros after a DUID: most are more than half of them, and take no loop.
pub fn few_zero(t: &[u8], at: usize, n: usize) -> bool
    requires { (n ≤ 128) × (at + n ≤ length t.now) }
    ensures { result ≡ all (eqb 0) (part at n t.now) }
{
    if 64 <= n {
        return ends_zero::<64>(t, at, n);
    }
    all_zero(t, at, n)
}
