// The walk over the places of the pool. Place k of length a has k as its first a bits.
ghost use Rattle.std.specs.Prelude.{◌≡◌, true, ◌+◌, ◌-◌, ◌*◌, ◌≤◌, ◌<◌, ◌^◌, length, option_map};
ghost use Rattle.rules.specs.Words.{from};
ghost use Rattle.rules.specs.Prefix.{zero_after};
ghost use Rattle.rules.specs.Table.{area};
ghost use Rattle.rules.specs.TableBytes.{record_at};
ghost use Rattle.rules.specs.Choose.{lowest, shortest_from};
ghost use Rattle.laws.specs.Places.{last_place};
ghost use Rattle.prefix.specs.Upper.{half_of};
ghost use Rattle.choose.specs.Choice.{chooser, settings_by, Walkable};

use super::chooser::Chooser;
use prefix::half::Half;

// The last place of length a that p reaches into.
fn last_place(p: Half, a: u64) -> u64
    requires { (p.length ≤ 60) × (1 ≤ a) × (a ≤ 60) × (zero_after (half_of p) ≡ true) }
    ensures { (result ≡ last_place (half_of p) a) × (result < 2 ^ a) }
{
    let end = p.upper + (0xFFFF_FFFF_FFFF_FFFF >> p.length);
    end >> (64 - a)
}

// The first place of length a past record i.
fn past(t: &[u8], i: usize, a: u64) -> u64
    requires { (i < 256) × (39344 ≤ length t.now) × (1 ≤ a) × (a ≤ 60) × (zero_after (area (record_at t.now i)) ≡ true) × ((area (record_at t.now i)).length ≤ 60) }
    ensures { result ≡ last_place (area (record_at t.now i)) a + 1 }
{
    last_place(fields::area_at(t, i), a) + 1
}

// The lowest free place of length a in the pool, by the upper half of its bits: each try compares with the records in table order
// until one overlaps, and goes on past that one's end.
pub fn lowest(t: &[u8], n: usize, pool: Half, a: u64) -> Option<u64>
    requires { Walkable t.now n pool.upper pool.length × (pool.length ≤ a) × (a ≤ 60) }
    ensures { option_map (λ x. x * 2 ^ 64) result ≡ lowest (chooser pool.upper pool.length 0 0) (from (record_at t.now) 0 n) a }
{
    let s = 64 - a;
    let last = last_place(pool, a);
    let mut k = pool.upper >> s;
    loop {
        let upper = k << s;
        match search::first_hit(t, n, Half { upper, length: a }) {
            None => {
                return Some(upper);
            }
            Some(i) => {
                k = past(t, i, a);
                if last < k {
                    return None;
                }
            }
        }
    }
}

// The lowest free place of the shortest length from `least` to 60 that has one.
pub fn shortest_from(t: &[u8], n: usize, pool: Half, least: u64) -> Option<Half>
    requires { Walkable t.now n pool.upper pool.length × (pool.length ≤ least) }
    ensures { option_map half_of result ≡ shortest_from (61 - least) (chooser pool.upper pool.length 0 0) (from (record_at t.now) 0 n) least }
{
    for a in least..61 {
        if let Some(upper) = lowest(t, n, pool, a) {
            return Some(Half { upper, length: a });
        }
    }
    None
}

impl Chooser<'_> {
    // The same, of what a choice goes by.
    pub fn shortest_from(self, least: u64) -> Option<Half>
        requires { self.pool.length ≤ least }
        ensures { option_map half_of result ≡ shortest_from (61 - least) (settings_by self.entry) (from (record_at self.entry.t.now) 0 self.entry.n) least }
    {
        shortest_from(self.t, self.n, self.pool, least)
    }
}
