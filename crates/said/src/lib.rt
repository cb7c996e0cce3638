// What is said of an IA_PD: the one that stands in the answer.
#![tactic(auto)]

ghost use Rattle.std.specs.Prelude.{◌≡◌, cond, [], ◌∷◌, map, ◌≤◌, ◌<◌};
ghost use Rattle.rules.specs.Words.{cons_if};
ghost use Rattle.rules.specs.Box.{t1_for, t2_for, offered, others, returned, ia_for};
ghost use Rattle.sound.specs.Setup.{setup_of};
ghost use Rattle.values.specs.Values.{listed_of, first_listed, ia_of};
ghost use Rattle.plan.specs.Plan.{lease_of, Aligned, Sendable, verdict_of, has_pd};
ghost use Rattle.said.specs.Said.{ia_with, listed_for, Small};

use listed::Listing;
use plan::{Delegation, Plan};
use sound::Setup;
use values::{IaPrefix, Pd};

// T1 is half the preferred lifetime, T2 four fifths, and both for ever where it is.
fn t1_for(preferred: u32) -> u32
    ensures { result ≡ t1_for preferred }
{
    if preferred == 0xFFFF_FFFF {
        return 0xFFFF_FFFF;
    }
    preferred / 2
}

fn t2_for(preferred: u32) -> u32
    ensures { result ≡ t2_for preferred }
{
    if preferred == 0xFFFF_FFFF {
        return 0xFFFF_FFFF;
    }
    (preferred as u64 * 4 / 5) as u32
}

// The bound or offered delegation with the lifetimes of the settings.
fn offered(s: Setup, d: Delegation) -> IaPrefix
    requires { Aligned d }
    ensures { listed_of result [] ≡ offered (setup_of s []) (lease_of d) }
{
    let bits = prefix::last::of_upper(d.prefix);
    if d.excluded {
        let out = prefix::last::of_upper(prefix::last::last64(d.prefix, d.length));
        return IaPrefix {
            preferred: s.preferred,
            valid: s.valid,
            length: d.length as usize,
            bits,
            cut: 64,
            out,
        };
    }
    IaPrefix {
        preferred: s.preferred,
        valid: s.valid,
        length: d.length as usize,
        bits,
        cut: 0,
        out: [0u8; 16],
    }
}

// An IA_PD with those prefixes, and no status.
fn with_prefixes(iaid: u32, t1: u32, t2: u32, l: Listing) -> Pd
    requires { l.count ≤ 5 }
    ensures { (ia_of result ≡ ia_with iaid t1 t2 (first_listed l.count l.prefixes) []) × Small result }
{
    let prefixes = l.prefixes;
    Pd {
        iaid,
        t1,
        t2,
        count: l.count,
        prefixes,
        says: false,
        status: 0,
    }
}

// One with no prefix, in answer to q, and with the status k if it says one.
fn with_status(q: Pd, says: bool, k: usize) -> Pd
    requires { k < 65536 }
    ensures { (ia_of result ≡ ia_with q.iaid 0 0 [] (cons_if says k [])) × Small result }
{
    let prefixes = q.prefixes;
    Pd {
        iaid: q.iaid,
        t1: 0,
        t2: 0,
        count: 0,
        prefixes,
        says,
        status: k,
    }
}

// How many of the n that are listed may be returned.
fn taken(back: bool, n: usize) -> usize
    ensures { result ≡ cond back n 0 }
{
    if back {
        return n;
    }
    0
}

// One with the delegation, then those of the first n that q lists that are other prefixes.
fn with_offer(s: Setup, d: Delegation, q: Pd, n: usize) -> Pd
    requires { Aligned d × (n ≤ 4) }
    ensures { (ia_of result ≡ ia_with q.iaid (t1_for s.preferred) (t2_for s.preferred) (offered (setup_of s []) (lease_of d) ∷ others (lease_of d).prefix (first_listed n q.prefixes)) []) × Small result }
{
    let ps = q.prefixes;
    let l = listed::others(offered(s, d), ps, n, d.prefix, d.length);
    with_prefixes(q.iaid, t1_for(s.preferred), t2_for(s.preferred), l)
}

// One with every prefix that q lists, returned.
fn with_returned(q: Pd) -> Pd
    requires { q.count ≤ 4 }
    ensures { (ia_of result ≡ ia_with q.iaid 0 0 (map returned (first_listed q.count q.prefixes)) []) × Small result }
{
    let ps = q.prefixes;
    with_prefixes(q.iaid, 0, 0, listed::all_returned(ps, q.count))
}

// The IA_PD that a plan says, in answer to the one that asked: it stands in the answer where the plan has one.
pub fn pd_for(s: Setup, p: Plan, q: Pd) -> Pd
    requires { (q.count ≤ 4) × Sendable p }
    ensures { (cons_if (has_pd p) (ia_of result) [] ≡ ia_for (setup_of s []) q.iaid (verdict_of (first_listed q.count q.prefixes) p)) × ((ia_of result).listed ≡ listed_for (setup_of s []) (verdict_of (first_listed q.count q.prefixes) p)) × Small result }
{
    match p {
        Plan::Offer(d) => with_offer(s, d, q, 0),
        Plan::Bind { lease, end: _ } => with_offer(s, lease, q, 0),
        Plan::Extend {
            at: _,
            end: _,
            lease,
            back,
        } => with_offer(s, lease, q, taken(back, q.count)),
        Plan::Return => with_returned(q),
        Plan::Say(k) => with_status(q, true, k),
        Plan::Free(_) => with_status(q, false, 0),
        Plan::Silence => with_status(q, false, 0),
    }
}

// Whether it stands there.
pub fn has_pd(p: Plan) -> bool
    ensures { result ≡ has_pd p }
{
    match p {
        Plan::Offer(_) => true,
        Plan::Bind { lease: _, end: _ } => true,
        Plan::Extend {
            at: _,
            end: _,
            lease: _,
            back: _,
        } => true,
        Plan::Return => true,
        Plan::Say(_) => true,
        Plan::Free(_) => false,
        Plan::Silence => false,
    }
}
