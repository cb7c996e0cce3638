// Whether it is plain at a first look that no two numbers are the same: a cheap answer that is nearly always yes.
#![tactic(auto)]

ghost use Rattle.std.specs.Prelude.{◌≡◌, true, ◌+◌, ◌≤◌, length, IfSome};
ghost use Rattle.distinct.specs.Distinct.{Distinct, Free};

// The first free one of the eight places from s; none where k is marked before it, or no place is free.
fn spot(keys: &[u64], marks: &[u8; 2048], s: usize, k: u64) -> Option<usize>
    requires { (256 ≤ length keys.now) × (s + 8 ≤ 2048) }
    ensures { IfSome result (Free keys.now marks.now s k) }
{
    for p in s..s + 8 {
        let mark = usize::from(marks[p]);
        if mark == 0 {
            return Some(p);
        }
        if keys[mark - 1] == k {
            return None;
        }
    }
    None
}

// Whether no two of the first n numbers are the same, as far as a look tells.
// Its clauses stay, n beside keys too, for docs/DECISIONS.md names it.
pub fn plain(keys: &[u64], n: usize) -> bool
    requires { (n ≤ 256) × (256 ≤ length keys.now) }
    ensures { result ≡ true → Distinct keys.now n }
{
    let mut marks = [0u8; 2048];
    for i in 0..n {
        let k = keys[i];
        let Some(p) = spot(keys, &marks, (k % 2039) as usize, k) else {
            return false;
        };
        marks[p] = ((i + 1) % 256) as u8;
    }
    true
}
