// How long the options get.
ghost use Rattle.std.specs.Prelude.{◌≡◌, [], ◌∷◌, ◌+◌, ◌*◌, ◌^◌, ◌≤◌, ◌<◌, length};
ghost use Rattle.rules.specs.Prefix.{bytes_for};
ghost use Rattle.rules.specs.Options.{option, printed};
ghost use Rattle.rules.specs.Message.{status_item, ia_bytes};
ghost use Rattle.values.specs.Values.{ia_of};
ghost use Rattle.print.specs.Bytes.{said_bytes, prefix_bytes, prefixes_bytes};

use values::{IaPrefix, Pd};

// A Status Code, and one or nothing.
pub fn status_size(k: usize) -> usize
    ensures { (result ≡ length (printed (status_item k ∷ []))) × (result ≤ 19) }
{
    if k == 0 {
        return 13;
    }
    if k == 3 {
        return 15;
    }
    if k == 6 {
        return 19;
    }
    6
}

pub fn said_size(says: bool, k: usize) -> usize
    ensures { (result ≡ length (said_bytes says k)) × (result ≤ 19) }
{
    if says {
        return status_size(k);
    }
    0
}

// A PD Exclude: the quotient by eight, rounded up.
pub fn exclude_size(a: usize, b: usize) -> usize
    ensures { (result ≡ 5 + bytes_for a b) × (result < 2 ^ 61 + 16) }
{
    if b < a {
        return 5;
    }
    let d = b - a;
    5 + d / 8 + (d % 8 + 7) / 8
}

// An IA Prefix, and some.
pub fn prefix_size(x: IaPrefix) -> usize
    ensures { (result ≡ length (prefix_bytes x)) × (result < 2 ^ 61 + 64) }
{
    if x.cut == 0 {
        return 29;
    }
    29 + exclude_size(x.length, x.cut)
}

pub fn prefixes_size(ps: &[IaPrefix]) -> usize
    requires { length ps.now ≤ 5 }
    ensures { (result ≡ length (prefixes_bytes ps.now)) × (result ≤ 5 * (2 ^ 61 + 64)) }
{
    let mut size = 0;
    for x in ps {
        size += prefix_size(*x);
    }
    size
}

pub fn pd_size(d: Pd) -> usize
    requires { d.count ≤ 5 }
    ensures { result ≡ length (option 25 (ia_bytes (ia_of d))) }
{
    let ps = d.prefixes;
    16 + prefixes_size(&ps[..d.count]) + said_size(d.says, d.status)
}
