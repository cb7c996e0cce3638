// The listed prefixes of an IA_PD: what is asked of them all, and how they are returned.
#![tactic(auto)]

ghost use Rattle.std.specs.Prelude.{◌≡◌, true, not, ◌&&◌, [], ◌∷◌, map, ◌≤◌, ltb};
ghost use Rattle.rules.specs.Words.{all, any};
ghost use Rattle.rules.specs.Prefix.{zero_after, same_prefix, inside, except_for};
ghost use Rattle.rules.specs.Box.{returned, others, same_except};
ghost use Rattle.prefix.specs.Upper.{upper, half_of};
ghost use Rattle.values.specs.Values.{listed_of, first_listed};

use prefix::half::Half;
use values::IaPrefix;

// At most five IA Prefixes: the first `count` of the array.
#[derive(Clone, Copy)]
pub struct Listing {
    pub count: usize,
    pub prefixes: [IaPrefix; 5],
}

// Whether x is the prefix of length a whose upper 64 bits are p.
fn is_prefix(x: IaPrefix, p: u64, a: u64) -> bool
    ensures { result ≡ same_prefix (listed_of x []).lease.prefix (upper p a) }
{
    let q = x.bits;
    (x.length as u64 == a) & prefix::last::is_upper(q, p)
}

// Whether one of the first n is.
pub fn some_is(ps: [IaPrefix; 5], n: usize, p: u64, a: u64) -> bool
    requires { n ≤ 5 }
    ensures { result ≡ any (λ x. same_prefix x.lease.prefix (upper p a)) (first_listed n ps) }
{
    ps[..n].iter().any(|x| is_prefix(*x, p, a))
}

// Whether the excluded prefix that x has, if any, is the last /64 of p of length a, and that is excluded.
fn goes_with(x: IaPrefix, p: u64, a: u64, excluded: bool) -> bool
    requires { (a ≤ 64) × (zero_after (upper p a) ≡ true) }
    ensures { result ≡ same_except (listed_of x []).lease.except (except_for excluded (upper p a)) }
{
    if x.cut == 0 {
        return true;
    }
    let q = x.out;
    excluded & (x.cut == 64) & prefix::last::is_upper(q, prefix::last::last64(p, a))
}

// Whether those of the first n do.
pub fn all_go_with(ps: [IaPrefix; 5], n: usize, p: u64, a: u64, excluded: bool) -> bool
    requires { (n ≤ 5) × (a ≤ 64) × (zero_after (upper p a) ≡ true) }
    ensures { result ≡ all (λ x. same_except x.lease.except (except_for excluded (upper p a))) (first_listed n ps) }
{
    ps[..n].iter().all(|x| goes_with(*x, p, a, excluded))
}

// Whether at least one is listed, and none of the first n lies in the pool.
pub fn gone(ps: [IaPrefix; 5], n: usize, pool: Half) -> bool
    requires { n ≤ 5 }
    ensures { result ≡ ltb 0 n && all (λ x. not (inside x.lease.prefix (half_of pool))) (first_listed n ps) }
{
    (0 < n)
        & ps[..n]
            .iter()
            .all(|x| !prefix::whole::inside16(x.bits, x.length, pool))
}

// As it is returned: lifetimes 0, length and bits as sent, and no options.
fn returned(x: IaPrefix) -> IaPrefix
    ensures { listed_of result [] ≡ returned (listed_of x []) }
{
    let bits = x.bits;
    IaPrefix {
        preferred: 0,
        valid: 0,
        length: x.length,
        bits,
        cut: 0,
        out: [0u8; 16],
    }
}

// The first n returned.
pub fn all_returned(ps: [IaPrefix; 5], n: usize) -> Listing
    requires { n ≤ 5 }
    ensures { (first_listed result.count result.prefixes ≡ map returned (first_listed n ps)) × (result.count ≤ 5) }
{
    let mut out = ps;
    for i in 0..n {
        out[i] = returned(ps[i]);
    }
    Listing {
        count: n,
        prefixes: out,
    }
}

// `first`, then those of the first n that are not the prefix of length a whose upper 64 bits are p, returned.
pub fn others(first: IaPrefix, ps: [IaPrefix; 5], n: usize, p: u64, a: u64) -> Listing
    requires { n ≤ 4 }
    ensures { (first_listed result.count result.prefixes ≡ listed_of first [] ∷ others (upper p a) (first_listed n ps)) × (result.count ≤ 5) }
{
    let mut out = ps;
    out[0] = first;
    let mut k = 1;
    for i in 0..n {
        let x = ps[i];
        if !is_prefix(x, p, a) {
            out[k] = returned(x);
            k += 1;
        }
    }
    Listing {
        count: k,
        prefixes: out,
    }
}
