// One record extended, put last, or taken out.
ghost use Rattle.std.specs.Prelude.{◌≡◌, true, ◌++◌, ◌+◌, ◌-◌, ◌*◌, ◌≤◌, ◌<◌, length};
ghost use Rattle.rules.specs.Words.{splice, be};
ghost use Rattle.rules.specs.Identity.{identity};
ghost use Rattle.rules.specs.TableBytes.{flag, leased, record_bytes, table_bytes, count_of, table_of, sound_bytes};
ghost use Rattle.rules.specs.Box.{bind};
ghost use Rattle.laws.specs.One.{changed, without};
ghost use Rattle.laws.specs.Change.{ending, on_records};

// The end of record k is set.
pub fn extend_at(t: &mut [u8], k: usize, end: u64)
    requires { (sound_bytes t.old ≡ true) × (k < count_of t.old) }
    ensures { t.new ≡ table_bytes (on_records (changed (ending end) k) (table_of t.old)) }
{
    cells::put(t, 176 + k * 153 + 15, 8, end);
}

// Record k is taken out, and the gap closed up.
pub fn remove_at(t: &mut [u8], k: usize)
    requires { (sound_bytes t.old ≡ true) × (k < count_of t.old) }
    ensures { t.new ≡ table_bytes (on_records (without k) (table_of t.old)) }
{
    let n = cells::get(t, 8, 2) as usize;
    let next = k + 1;
    let last = n - 1;
    cells::shift(t, 176 + k * 153, 176 + next * 153, (n - next) * 153);
    cells::clear(t, 176 + last * 153, 153);
    cells::put(t, 8, 2, last as u64);
}

// A delegation and its end: the prefix of length a by its upper 64 bits, and whether its last /64 is excluded.
fn put_lease(t: &mut [u8], at: usize, p: u64, a: u64, excluded: bool, end: u64)
    requires { at + 18 ≤ length t.old }
    ensures { t.new ≡ splice at (be 8 p ++ (be 1 a ++ (be 1 (flag excluded) ++ be 8 end))) t.old }
{
    cells::put(t, at, 8, p);
    cells::put(t, at + 8, 1, a);
    cells::put(t, at + 9, 1, excluded as u64);
    cells::put(t, at + 10, 8, end);
}

// A whole record.
fn put_record(
    t: &mut [u8],
    at: usize,
    duid: &[u8],
    iaid: u32,
    p: u64,
    a: u64,
    excluded: bool,
    end: u64,
)
    requires { (length duid.now ≤ 130) × (at + 153 ≤ length t.old) }
    ensures { t.new ≡ splice at (record_bytes (record { owner = identity duid.now iaid; lease = leased p a excluded; end = end })) t.old }
{
    cells::put(t, at, 1, duid.len() as u64);
    cells::put(t, at + 1, 4, iaid as u64);
    put_lease(t, at + 5, p, a, excluded, end);
    cells::put_filled(t, at + 23, 130, duid);
}

// A record is put last.
pub fn append(t: &mut [u8], duid: &[u8], iaid: u32, p: u64, a: u64, excluded: bool, end: u64)
    requires { (sound_bytes t.old ≡ true) × (count_of t.old < 256) × (length duid.now ≤ 130) }
    ensures { t.new ≡ table_bytes (on_records (bind (identity duid.now iaid) (leased p a excluded) end) (table_of t.old)) }
{
    let n = cells::get(t, 8, 2) as usize;
    put_record(t, 176 + n * 153, duid, iaid, p, a, excluded, end);
    cells::put(t, 8, 2, (n + 1) as u64);
}
