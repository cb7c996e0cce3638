// A table with no record: settings and the last time.
ghost use Rattle.std.specs.Prelude.{◌≡◌, [], ◌++◌, ◌≤◌, length, replicate};
ghost use Rattle.rules.specs.Words.{splice, filled, be};
ghost use Rattle.rules.specs.TableBytes.{table_size, header_size, flag, table_bytes};
ghost use Rattle.leases.specs.Values.{settings_for};

// The pool of length a by its upper 64 bits, the shortest and the standard length, and whether exclusion is on.
fn put_pool(t: &mut [u8], p: u64, a: u64, shortest: u64, standard: u64, exclusion: bool)
    requires { header_size ≤ length t.old }
    ensures { t.new ≡ splice 10 (be 8 p ++ (be 1 a ++ (be 1 shortest ++ (be 1 standard ++ be 1 (flag exclusion))))) t.old }
{
    cells::put(t, 10, 8, p);
    cells::put(t, 18, 1, a);
    cells::put(t, 19, 1, shortest);
    cells::put(t, 20, 1, standard);
    cells::put(t, 21, 1, exclusion as u64);
}

// The lifetimes, the box's DUID, and zeros up to the first record.
fn put_terms(t: &mut [u8], preferred: u64, valid: u64, own: &[u8])
    requires { (length own.now ≤ 130) × (header_size ≤ length t.old) }
    ensures { t.new ≡ splice 22 (be 4 preferred ++ (be 4 valid ++ (be 1 (length own.now) ++ (filled 130 own.now ++ replicate 15 0)))) t.old }
{
    cells::put(t, 22, 4, preferred);
    cells::put(t, 26, 4, valid);
    cells::put(t, 30, 1, own.len() as u64);
    cells::put_filled(t, 31, 130, own);
    cells::clear(t, 161, 15);
}

// The whole array is written.
pub fn start(
    t: &mut [u8],
    p: u64,
    a: u64,
    shortest: u64,
    standard: u64,
    exclusion: bool,
    preferred: u64,
    valid: u64,
    own: &[u8],
    time: u64,
)
    requires { (length t.old ≡ table_size) × (length own.now ≤ 130) }
    ensures { t.new ≡ table_bytes (record { settings = settings_for p a shortest standard exclusion preferred valid own.now; last = time; records = [] }) }
{
    cells::put(t, 0, 8, time);
    cells::put(t, 8, 2, 0);
    put_pool(t, p, a, shortest, standard, exclusion);
    put_terms(t, preferred, valid, own);
    cells::clear(t, 176, 39168);
}
