// One record's fields, read in place.
#![tactic(auto)]

ghost use Rattle.std.specs.Prelude.{◌≡◌, ◌+◌, ◌*◌, ◌≤◌, ◌<◌, length};
ghost use Rattle.rules.specs.Words.{part, same_bytes};
ghost use Rattle.rules.specs.Table.{area, live};
ghost use Rattle.rules.specs.TableBytes.{table_size, record_at};
ghost use Rattle.prefix.specs.Upper.{half_of};

use prefix::half::Half;

pub fn iaid_at(t: &[u8], i: usize) -> u32
    requires { (i < 256) × (table_size ≤ length t.now) }
    ensures { result ≡ (record_at t.now i).owner.iaid }
{
    cells::get(t, 176 + i * 153 + 1, 4) as u32
}

// Record i's prefix.
pub fn area_at(t: &[u8], i: usize) -> Half
    requires { (i < 256) × (table_size ≤ length t.now) }
    ensures { half_of result ≡ area (record_at t.now i) }
{
    let o = 176 + i * 153;
    let upper = cells::get(t, o + 5, 8);
    let length = cells::get(t, o + 13, 1);
    Half { upper, length }
}

// Whether record i ends after this time, or never.
pub fn live_at(t: &[u8], i: usize, time: u64) -> bool
    requires { (i < 256) × (table_size ≤ length t.now) }
    ensures { result ≡ live time (record_at t.now i) }
{
    time < cells::get(t, 176 + i * 153 + 15, 8)
}

// How many bytes record i has of its DUID: as many as its length says, and at most the 130 that there are.
pub fn duid_len(t: &[u8], i: usize) -> usize
    requires { (i < 256) × (table_size ≤ length t.now) }
    ensures { (result ≡ length (record_at t.now i).owner.duid) × (result ≤ 130) }
{
    let n = cells::get(t, 176 + i * 153, 1);
    if n < 130 { n as usize } else { 130 }
}

// Whether the bytes from `at` are those of s. The last one is looked at first and here: there DUIDs of one maker differ.
fn are_bytes(t: &[u8], at: usize, s: &[u8]) -> bool
    requires { at + length s.now ≤ length t.now }
    ensures { result ≡ same_bytes (part at (length s.now) t.now) s.now }
{
    let n = s.len();
    if n == 0 {
        return true;
    }
    if t[at + (n - 1)] != s[n - 1] {
        return false;
    }
    cells::same_bytes(t, at, s)
}

// Whether record i's DUID is this one.
pub fn has_duid(t: &[u8], i: usize, duid: &[u8]) -> bool
    requires { (i < 256) × (table_size ≤ length t.now) }
    ensures { result ≡ same_bytes (record_at t.now i).owner.duid duid.now }
{
    if duid_len(t, i) != duid.len() {
        return false;
    }
    are_bytes(t, 176 + i * 153 + 23, duid)
}
