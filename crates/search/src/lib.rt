// Reading the lent table: records, and searches among the first n. Nothing is written here.
#![tactic(auto)]

ghost use Rattle.std.specs.Prelude.{◌≡◌, ◌+◌, ◌*◌, ◌≤◌, ◌<◌, length};
ghost use Rattle.rules.specs.Words.{keep, from};
ghost use Rattle.rules.specs.Identity.{identity};
ghost use Rattle.rules.specs.Table.{live, is_binding};
ghost use Rattle.rules.specs.TableBytes.{record_at};
ghost use Rattle.rules.specs.Choose.{hits};
ghost use Rattle.laws.specs.Loops.{first_place};
ghost use Rattle.prefix.specs.Upper.{half_of};
ghost use Rattle.search.specs.Binding.{binding_of};

use prefix::half::Half;

// A record of the table by value: the first `len` bytes are its DUID.
#[derive(Clone, Copy)]
pub struct Binding {
    pub duid: [u8; 130],
    pub len: usize,
    pub iaid: u32,
    pub prefix: u64,
    pub length: u64,
    pub excluded: bool,
    pub end: clock::Moment,
}

// Record i.
pub fn record_at(t: &[u8], i: usize) -> Binding
    requires { (i < 256) × (39344 ≤ length t.now) }
    ensures { binding_of result ≡ record_at t.now i }
{
    let o = 176 + i * 153;
    let len = cells::get(t, o, 1) as usize;
    let iaid = cells::get(t, o + 1, 4) as u32;
    let prefix = cells::get(t, o + 5, 8);
    let length = cells::get(t, o + 13, 1);
    let excluded = cells::get(t, o + 14, 1) != 0;
    let end = clock::Moment(cells::get(t, o + 15, 8));
    let duid = cells::bytes_at(t, o + 23);
    Binding {
        duid,
        len,
        iaid,
        prefix,
        length,
        excluded,
        end,
    }
}

// Whether record i overlaps p: only its prefix is read.
pub fn hits(t: &[u8], i: usize, p: Half) -> bool
    requires { (i < 256) × (39344 ≤ length t.now) }
    ensures { result ≡ hits (half_of p) (record_at t.now i) }
{
    fields::area_at(t, i).overlaps(p)
}

// The first of n records that overlaps p.
pub fn first_hit(t: &[u8], n: usize, p: Half) -> Option<usize>
    requires { (n ≤ 256) × (39344 ≤ length t.now) }
    ensures { result ≡ first_place (hits (half_of p)) (from (record_at t.now) 0 n) 0 }
{
    (0..n).find(|i| hits(t, *i, p))
}

// Whether record i is a binding of this identity.
pub fn is_of(t: &[u8], i: usize, duid: &[u8], iaid: u32) -> bool
    requires { (i < 256) × (39344 ≤ length t.now) }
    ensures { result ≡ is_binding (identity duid.now iaid) (record_at t.now i) }
{
    if fields::iaid_at(t, i) != iaid {
        return false;
    }
    fields::has_duid(t, i, duid)
}

// The first of n records that is a binding of this identity.
pub fn find(t: &[u8], n: usize, duid: &[u8], iaid: u32) -> Option<usize>
    requires { (n ≤ 256) × (39344 ≤ length t.now) }
    ensures { result ≡ first_place (is_binding (identity duid.now iaid)) (from (record_at t.now) 0 n) 0 }
{
    (0..n).find(|i| is_of(t, *i, duid, iaid))
}

// How many of n records are live at this time.
pub fn count_live(t: &[u8], n: usize, time: u64) -> usize
    requires { (n ≤ 256) × (39344 ≤ length t.now) }
    ensures { result ≡ length (keep (live time) (from (record_at t.now) 0 n)) }
{
    (0..n).filter(|i| fields::live_at(t, *i, time)).count()
}
