// Whether lent bytes are a sound table. Every function reads only.
#![tactic(auto)]

ghost use Rattle.std.specs.Prelude.{◌≡◌, ◌+◌, ◌-◌, ◌≤◌, ◌<◌, true, false, [], length};
ghost use Rattle.rules.specs.Words.{all, no_two, from, num_at};
ghost use Rattle.rules.specs.Table.{may_stand};
ghost use Rattle.rules.specs.TableBytes.{table_size, flag, row_at, record_at, settings_of, count_of, sound_bytes};
ghost use Rattle.laws.specs.Flat.{good_numbers, duid_in, good_row, good_header};
ghost use Rattle.ranks.specs.Rank.{NoneShorter, clear};
ghost use Rattle.sound.specs.Setup.{setup_of, Agrees};

use prefix::half::Half;

// The numbers of the box's settings: the pool with its length P, then S and D. The own DUID stays in the table.
#[derive(Clone, Copy)]
pub struct Setup {
    pub pool: Half,
    pub shortest: u64,
    pub standard: u64,
    pub preferred: u32,
    pub valid: u32,
    pub exclusion: bool,
}

// The number of records.
pub fn count_of(t: &[u8]) -> usize
    requires { table_size ≤ length t.now }
    ensures { result ≡ count_of t.now }
{
    cells::get(t, 8, 2) as usize
}

// The last time.
pub fn last_of(t: &[u8]) -> u64
    requires { table_size ≤ length t.now }
    ensures { result ≡ num_at t.now 0 8 }
{
    cells::get(t, 0, 8)
}

// The settings in the header.
pub fn setup_of(t: &[u8]) -> Setup
    requires { table_size ≤ length t.now }
    ensures { Agrees result t.now }
{
    let upper = cells::get(t, 10, 8);
    let length = cells::get(t, 18, 1);
    let shortest = cells::get(t, 19, 1);
    let standard = cells::get(t, 20, 1);
    let x = cells::get(t, 21, 1);
    let preferred = cells::get(t, 22, 4) as u32;
    let valid = cells::get(t, 26, 4) as u32;
    Setup {
        pool: Half { upper, length },
        shortest,
        standard,
        preferred,
        valid,
        exclusion: x != 0,
    }
}

// The box's own DUID, as that stretch of the table.
pub fn own_of(t: &[u8]) -> &[u8]
    requires { sound_bytes t.now ≡ true }
    ensures { result.now ≡ (settings_of t.now).own }
{
    let end = 31 + cells::get(t, 30, 1) as usize;
    &t[31..end]
}

// Whether n of the 130 bytes from `at` are a DUID, and zeros follow.
fn good_duid(t: &[u8], at: usize, n: usize) -> bool
    requires { at + 130 ≤ length t.now }
    ensures { result ≡ duid_in at n t.now }
{
    if n < 3 {
        return false;
    }
    if 130 < n {
        return false;
    }
    cells::few_zero(t, at + n, 130 - n)
}

// Whether the header is good: the settings' numbers, the box's own DUID, and 15 zeros.
pub fn good_header(t: &[u8]) -> bool
    requires { table_size ≤ length t.now }
    ensures { result ≡ good_header t.now }
{
    let s = setup_of(t);
    let x = cells::get(t, 21, 1);
    let n = cells::get(t, 30, 1) as usize;
    (32 <= s.pool.length)
        & (s.pool.length <= 56)
        & s.pool.is_aligned()
        & (s.pool.length <= s.shortest)
        & (s.shortest <= s.standard)
        & (s.standard <= 60)
        & (120 <= s.preferred)
        & (s.preferred <= s.valid)
        & (x <= 1)
        & good_duid(t, 31, n)
        & cells::all_zero(t, 161, 15)
}

fn flag(b: bool) -> u64
    ensures { result ≡ flag b }
{
    if b { 1 } else { 0 }
}

// Whether a record's numbers go with the settings: prefix, excluded, end.
fn good_numbers(s: Setup, p: Half, x: u64, end: u64) -> bool
    ensures { result ≡ good_numbers (setup_of s []) p.upper p.length x end }
{
    p.inside(s.pool)
        & (s.shortest <= p.length)
        & (p.length <= 60)
        & p.is_aligned()
        & (x <= flag(s.exclusion))
        & ((end < 0x2_0000_0000_0000) | (end == 0xFFFF_FFFF_FFFF_FFFF))
}

// Whether the bytes of record i are good by themselves.
pub fn good_row(t: &[u8], i: usize, s: Setup) -> bool
    requires { (i < 256) × (table_size ≤ length t.now) × Agrees s t.now }
    ensures { result ≡ good_row (settings_of t.now) (row_at t.now i) }
{
    let o = 176 + i * 153;
    let n = cells::get(t, o, 1) as usize;
    let upper = cells::get(t, o + 5, 8);
    let length = cells::get(t, o + 13, 1);
    let x = cells::get(t, o + 14, 1);
    let end = cells::get(t, o + 15, 8);
    good_duid(t, o + 23, n) & good_numbers(s, Half { upper, length }, x, end)
}

// Whether those of each of n records are.
fn rows_good(t: &[u8], n: usize, s: Setup) -> bool
    requires { (n ≤ 256) × (table_size ≤ length t.now) × Agrees s t.now }
    ensures { result ≡ all (good_row (settings_of t.now)) (from (row_at t.now) 0 n) }
{
    for i in 0..n {
        if !good_row(t, i, s) {
            return false;
        }
    }
    true
}

// Whether every two of n good records are clear of each other, by area or by identity. Keys of which no two are the same tell it
// at a look, which is the common case: by area the first m bits, where no record has fewer.
fn all_clear(t: &[u8], area: bool, m: u64, n: usize) -> bool
    requires { (n ≤ 256) × (table_size ≤ length t.now) × (all (good_row (settings_of t.now)) (from (row_at t.now) 0 n) ≡ true) × (m ≤ 64) × NoneShorter t.now n m }
    ensures { result ≡ no_two (clear area) (from (record_at t.now) 0 n) }
{
    let mut keys = [0u64; 256];
    ranks::put_keys(t, area, m, n, &mut keys);
    if distinct::plain(&keys, n) {
        return true;
    }
    if !area {
        return shared::no_name_twice(t, &mut keys, n);
    }
    ranks::put_keys(t, true, 64, n, &mut keys);
    ordered::apart(t, &keys, n)
}

// Whether every two of them may stand in one table.
fn no_two(t: &[u8], n: usize) -> bool
    requires { (n ≤ 256) × (table_size ≤ length t.now) × (all (good_row (settings_of t.now)) (from (row_at t.now) 0 n) ≡ true) }
    ensures { result ≡ no_two may_stand (from (record_at t.now) 0 n) }
{
    let m = ranks::shortest(t, n);
    if !all_clear(t, true, m, n) {
        return false;
    }
    all_clear(t, false, m, n)
}

// Whether the bytes are a sound table.
pub fn sound(t: &[u8]) -> bool
    ensures { result ≡ sound_bytes t.now }
{
    if t.len() != 39344 {
        return false;
    }
    let n = count_of(t);
    if 256 < n {
        return false;
    }
    if !rows_good(t, n, setup_of(t)) {
        return false;
    }
    let past = 176 + n * 153;
    good_header(t)
        & no_two(t, n)
        & cells::all_zero(t, past, 39344 - past)
        & (last_of(t) < 0x1_0000_0000_0000)
}
