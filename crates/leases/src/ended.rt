// Ended records dropped, in place.
ghost use Rattle.std.specs.Prelude.{◌≡◌, true, cond, ◌+◌, ◌-◌, ◌*◌, ◌≤◌, ◌<◌, length};
ghost use Rattle.rules.specs.Words.{splice};
ghost use Rattle.rules.specs.TableBytes.{table_size, place, flag, row_at, table_bytes, table_of, sound_bytes};
ghost use Rattle.laws.specs.Rows.{kept, dropped};
ghost use Rattle.laws.specs.Change.{live_row, tidied};

// Record i moves to place j if it is live; the next place is handed back.
fn step(t: &mut [u8], i: usize, j: usize, time: u64) -> usize
    requires { (j ≤ i) × (i < 256) × (table_size ≤ length t.old) }
    ensures { (result ≡ j + flag (live_row time (row_at t.old i))) × (t.new ≡ cond (live_row time (row_at t.old i)) (splice (place j) (row_at t.old i) t.old) t.old) }
{
    if fields::live_at(t, i, time) {
        if i == j {
            return j + 1;
        }
        cells::shift(t, 176 + j * 153, 176 + i * 153, 153);
        return j + 1;
    }
    j
}

// The ended ones of n records are dropped; how many are left is handed back.
fn drop_ended(t: &mut [u8], n: usize, time: u64) -> usize
    requires { (n ≤ 256) × (table_size ≤ length t.old) }
    ensures { (result ≡ length (kept (live_row time) n t.old)) × (t.new ≡ dropped (live_row time) n t.old) }
{
    let mut j = 0;
    for i in 0..n {
        j = step(t, i, j, time);
    }
    cells::clear(t, 176 + j * 153, (n - j) * 153);
    j
}

// The last time is set, and ended records are dropped.
pub fn tidy(t: &mut [u8], time: u64)
    requires { sound_bytes t.old ≡ true }
    ensures { t.new ≡ table_bytes (tidied time (table_of t.old)) }
{
    let n = cells::get(t, 8, 2) as usize;
    let k = drop_ended(t, n, time);
    cells::put(t, 0, 8, time);
    cells::put(t, 8, 2, k as u64);
}
