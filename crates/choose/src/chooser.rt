// What a choice goes by. The facts that every step of it takes are stated here, once.
ghost use Rattle.std.specs.Prelude.{◌≡◌, true, ◌≤◌, leb, length};
ghost use Rattle.rules.specs.Words.{all, from};
ghost use Rattle.rules.specs.Prefix.{zero_after};
ghost use Rattle.rules.specs.Table.{area};
ghost use Rattle.rules.specs.TableBytes.{table_size, record_at};
ghost use Rattle.laws.specs.Choose.{Aligned};
ghost use Rattle.prefix.specs.Upper.{upper};

use prefix::half::Half;

// The first n records of a lent table, and of the settings the pool and the lengths S and D.
#[derive(Clone, Copy)]
pub struct Chooser<'a> {
    pub t: &'a [u8],
    pub n: usize,
    pub pool: Half,
    pub shortest: u64,
    pub standard: u64,
    pub ghost few: { n ≤ 256 },
    pub ghost room: { table_size ≤ length t.now },
    pub ghost aligned: { Aligned (from (record_at t.now) 0 n) },
    pub ghost short: { all (λ r. leb (area r).length 60) (from (record_at t.now) 0 n) ≡ true },
    pub ghost some: { 1 ≤ pool.length },
    pub ghost zeros: { zero_after (upper pool.upper pool.length) ≡ true },
    pub ghost pool_shortest: { pool.length ≤ shortest },
    pub ghost shortest_standard: { shortest ≤ standard },
    pub ghost standard_60: { standard ≤ 60 },
}
