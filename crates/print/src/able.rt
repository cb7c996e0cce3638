// Which values have an encoding.
ghost use Rattle.std.specs.Prelude.{◌≡◌, false, ◌&&◌, [], ◌≤◌, ltb, map, take};
ghost use Rattle.rules.specs.Words.{all, num};
ghost use Rattle.rules.specs.Prefix.{prefix, fits};
ghost use Rattle.rules.specs.Lone.{listed_encodes};
ghost use Rattle.values.specs.Values.{listed_of, first_listed};
ghost use Rattle.print.specs.Lone.{Trimmed};

use values::{IaPrefix, Pd};

// At most 128 long, and sixteen bytes are of 128 bits.
fn fits(q: [u8; 16], a: usize) -> bool
    ensures { result ≡ fits (prefix (num q) a) }
{
    a <= 128
}

// An IA Prefix, and all of some.
pub fn encodes(x: IaPrefix) -> bool
    ensures { result ≡ listed_encodes (listed_of x []) }
{
    let p = x.bits;
    let e = x.out;
    fits(p, x.length) & ((x.cut == 0) | prefix::exclude::encodable(p, x.length, e, x.cut))
}

pub fn all_encode(ps: &[IaPrefix]) -> bool
    ensures { result ≡ all listed_encodes (map (λ x. listed_of x []) ps.now) }
{
    ps.iter().all(|x| encodes(*x))
}

// How many of the first n there are.
fn few(ps: [IaPrefix; 5], n: usize) -> usize
    ensures { (result ≤ 5) × (take result ps ≡ take n ps) }
{
    if n < 5 { n } else { 5 }
}

// The same IA_PD with at most five prefixes, and with 0 for a status that it doesn't say.
pub fn trimmed(d: Pd) -> Pd
    ensures { Trimmed d result }
{
    let prefixes = d.prefixes;
    let count = few(prefixes, d.count);
    let status = if d.says { d.status } else { 0 };
    Pd {
        iaid: d.iaid,
        t1: d.t1,
        t2: d.t2,
        count,
        prefixes,
        says: d.says,
        status,
    }
}

pub fn pd_encodes(d: Pd) -> bool
    requires { d.count ≤ 5 }
    ensures { result ≡ all listed_encodes (first_listed d.count d.prefixes) && ltb d.status 65536 }
{
    let ps = d.prefixes;
    all_encode(&ps[..d.count]) & (d.status < 65536)
}
