// A hint: the length that is wanted, and whether its prefix can be had as it is.
ghost use Rattle.std.specs.Prelude.{◌≡◌, not, ◌&&◌, ◌≤◌, eqb, leb, length};
ghost use Rattle.rules.specs.Words.{from};
ghost use Rattle.rules.specs.Prefix.{zero_after, inside};
ghost use Rattle.rules.specs.TableBytes.{record_at};
ghost use Rattle.rules.specs.Choose.{wanted_for, free, is_place};
ghost use Rattle.prefix.specs.Upper.{half_of};
ghost use Rattle.choose.specs.Choice.{chooser, settings_by, hint_of};

use super::chooser::Chooser;
use prefix::half::Half;

// A hint by the halves of its bits, with its length.
#[derive(Clone, Copy)]
pub struct Hint {
    pub high: u64,
    pub low: u64,
    pub length: u64,
}

// The length that a hint of length n wants, of any two lengths S and D.
pub fn wanted(shortest: u64, standard: u64, n: u64) -> u64
    ensures { result ≡ wanted_for (chooser 0 0 shortest standard) n }
{
    if n == 0 {
        return standard;
    }
    if n < shortest {
        return shortest;
    }
    if 60 < n {
        return 60;
    }
    n
}

// None of n records overlaps p.
fn is_free(t: &[u8], n: usize, p: Half) -> bool
    requires { (n ≤ 256) × (39344 ≤ length t.now) }
    ensures { result ≡ free (from (record_at t.now) 0 n) (half_of p) }
{
    search::first_hit(t, n, p).is_none()
}

// p is not zero, of a good length, aligned, and in the pool.
fn could_be(pool: Half, shortest: u64, p: Half) -> bool
    ensures { result ≡ not (eqb p.upper 0) && leb shortest p.length && leb p.length 60 && zero_after (half_of p) && inside (half_of p) (half_of pool) }
{
    (p.upper != 0) & (shortest <= p.length) & (p.length <= 60) & p.is_aligned() & p.inside(pool)
}

// The prefix of a hint can be had as it is, among n records of any kind.
pub fn is_place(t: &[u8], n: usize, pool: Half, shortest: u64, h: Hint) -> bool
    requires { (n ≤ 256) × (39344 ≤ length t.now) }
    ensures { result ≡ is_place (chooser pool.upper pool.length shortest 0) (from (record_at t.now) 0 n) (Some (hint_of h)) }
{
    if h.low != 0 {
        return false;
    }
    let p = Half {
        upper: h.high,
        length: h.length,
    };
    could_be(pool, shortest, p) & is_free(t, n, p)
}

impl Chooser<'_> {
    // The length that a hint of length n wants.
    pub fn wanted(self, n: u64) -> u64
        ensures { result ≡ wanted_for (settings_by self.entry) n }
    {
        wanted(self.shortest, self.standard, n)
    }

    // The prefix of a hint can be had as it is.
    pub fn is_place(self, h: Hint) -> bool
        ensures { result ≡ is_place (settings_by self.entry) (from (record_at self.entry.t.now) 0 self.entry.n) (Some (hint_of h)) }
    {
        is_place(self.t, self.n, self.pool, self.shortest, h)
    }
}
