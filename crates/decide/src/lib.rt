// Deciding about one IA_PD over the records of a table. Nothing is written here.
#![tactic(auto)]

ghost use Rattle.std.specs.Prelude.{◌≡◌, true, false, ℕ, ◌≤◌, ◌<◌, ◌^◌, length, option_map};
ghost use Rattle.rules.specs.Clock.{extended};
ghost use Rattle.rules.specs.Identity.{identity};
ghost use Rattle.rules.specs.Table.{current};
ghost use Rattle.rules.specs.TableBytes.{table_size, settings_of, count_of, table_of, sound_bytes};
ghost use Rattle.rules.specs.Choose.{choose};
ghost use Rattle.rules.specs.Box.{binding, gone, hint_of, is_silence, serve};
ghost use Rattle.rules.specs.declared.Kind.TheVariants.{Solicit, Request, Rebind};
ghost use Rattle.values.specs.Values.{first_listed};
ghost use Rattle.sound.specs.Setup.{Agrees};
ghost use Rattle.prefix.specs.Upper.{half_of};
ghost use Rattle.plan.specs.Plan.{lease_of, asked_of, Aligned};
ghost use Rattle.decide.specs.Decided.{Decided};
ghost use Rattle.decide.specs.Found.{Bound, Unbound, frees, is_there};

use choose::chooser::Chooser;
use choose::hint::Hint;
use clock::{Lifetime, Moment};
use plan::{Delegation, Plan};
use prefix::half::Half;
use rules::Kind;
use sound::Setup;
use values::{IaPrefix, Pd};

// The later end of a binding that is extended.
fn later_end(t: &[u8], time: u64, end: Moment) -> u64
    requires { (table_size ≤ length t.now) × (time < 2 ^ 48) }
    ensures { result ≡ extended end.0 time (settings_of t.now).valid }
{
    let s = sound::setup_of(t);
    end.extend(Moment(time), Lifetime(s.valid)).0
}

// Whether a Release that lists these prefixes frees that delegation.
fn freed(lease: Delegation, q: Pd) -> bool
    requires { Aligned lease × (q.count ≤ 4) }
    ensures { result ≡ frees (lease_of lease) (first_listed q.count q.prefixes) }
{
    let ps = q.prefixes;
    listed::some_is(ps, q.count, lease.prefix, lease.length)
        & listed::all_go_with(ps, q.count, lease.prefix, lease.length, lease.excluded)
}

// What is to be done where record k is the asker's.
fn bound(t: &[u8], time: u64, kind: Kind, k: usize, q: Pd) -> Plan
    requires { (sound_bytes t.now ≡ true) × (time < 2 ^ 48) × (k < count_of t.now) × (q.count ≤ 4) }
    ensures { Bound t.now time kind k (first_listed q.count q.prefixes) result }
{
    let r = search::record_at(t, k);
    let end = later_end(t, time, r.end);
    let lease = Delegation {
        prefix: r.prefix,
        length: r.length,
        excluded: r.excluded,
    };
    match kind {
        Kind::Solicit => Plan::Offer(lease),
        Kind::Request => Plan::Extend {
            at: k,
            end,
            lease,
            back: false,
        },
        Kind::Renew | Kind::Rebind => Plan::Extend {
            at: k,
            end,
            lease,
            back: true,
        },
        Kind::Release => if freed(lease, q) {
            Plan::Free(k)
        } else {
            Plan::Say(3)
        },
    }
}

// A prefix for a new binding, with the first of n listed ones as the hint.
fn choice(t: &[u8], s: Setup, ps: [IaPrefix; 5], n: usize) -> Option<Half>
    requires { (sound_bytes t.now ≡ true) × Agrees s t.now }
    ensures { option_map half_of result ≡ choose (settings_of t.now) (table_of t.now).records (hint_of (first_listed n ps)) }
{
    let x = ps[0];
    let bits = x.bits;
    let hint = Hint {
        high: prefix::whole::high(bits),
        low: prefix::whole::low(bits),
        length: x.length as u64,
    };
    let c = Chooser {
        t,
        n: sound::count_of(t),
        pool: s.pool,
        shortest: s.shortest,
        standard: s.standard,
    };
    choose::choose(c, (0 < n).then_some(hint))
}

// A Solicit without a binding is offered what is chosen.
fn solicited(t: &[u8], asks: bool, q: Pd) -> Plan
    requires { sound_bytes t.now ≡ true }
    ensures { (time : ℕ) → Unbound t.now time Solicit asks (first_listed q.count q.prefixes) result }
{
    let s = sound::setup_of(t);
    let ps = q.prefixes;
    match choice(t, s, ps, q.count) {
        Some(p) => Plan::Offer(Delegation {
            prefix: p.upper,
            length: p.length,
            excluded: s.exclusion & asks,
        }),
        None => Plan::Say(6),
    }
}

// A Request without one gets it bound.
fn requested(t: &[u8], time: u64, asks: bool, q: Pd) -> Plan
    requires { (sound_bytes t.now ≡ true) × (time < 2 ^ 48) }
    ensures { Unbound t.now time Request asks (first_listed q.count q.prefixes) result }
{
    let s = sound::setup_of(t);
    let ps = q.prefixes;
    match choice(t, s, ps, q.count) {
        Some(p) => Plan::Bind {
            lease: Delegation {
                prefix: p.upper,
                length: p.length,
                excluded: s.exclusion & asks,
            },
            end: Moment(time).plus(Lifetime(s.valid)).0,
        },
        None => Plan::Say(6),
    }
}

// Whether at least one of n prefixes is listed, and none lies in the pool.
fn all_gone(t: &[u8], ps: [IaPrefix; 5], n: usize) -> bool
    requires { (table_size ≤ length t.now) × (n ≤ 4) }
    ensures { result ≡ gone (settings_of t.now) (first_listed n ps) }
{
    let s = sound::setup_of(t);
    listed::gone(ps, n, s.pool)
}

// What is to be done where no record is the asker's.
fn unbound(t: &[u8], time: u64, kind: Kind, asks: bool, q: Pd) -> Plan
    requires { (sound_bytes t.now ≡ true) × (time < 2 ^ 48) × (q.count ≤ 4) }
    ensures { Unbound t.now time kind asks (first_listed q.count q.prefixes) result }
{
    match kind {
        Kind::Solicit => solicited(t, asks, q),
        Kind::Request => requested(t, time, asks, q),
        Kind::Renew | Kind::Release => Plan::Say(3),
        Kind::Rebind => {
            let ps = q.prefixes;
            if all_gone(t, ps, q.count) {
                Plan::Return
            } else {
                Plan::Silence
            }
        }
    }
}

// What is to be done, where no record has ended.
pub fn decide(t: &[u8], time: u64, kind: Kind, duid: &[u8], asks: bool, q: Pd) -> Plan
    requires { (sound_bytes t.now ≡ true) × (time < 2 ^ 48) × (q.count ≤ 4) }
    ensures { Decided t.now time kind (asked_of duid.now asks q) result }
{
    match search::find(t, sound::count_of(t), duid, q.iaid) {
        Some(k) => bound(t, time, kind, k, q),
        None => unbound(t, time, kind, asks, q),
    }
}

// Whether the identity has a live binding.
fn is_live(t: &[u8], time: u64, duid: &[u8], iaid: u32) -> bool
    requires { sound_bytes t.now ≡ true }
    ensures { result ≡ is_there (binding (identity duid.now iaid) (current time (table_of t.now).records)) }
{
    search::find(t, sound::count_of(t), duid, iaid).is_some_and(|k| fields::live_at(t, k, time))
}

// Whether a Rebind is passed over in silence, once ended records are dropped.
pub fn silent(t: &[u8], time: u64, duid: &[u8], q: Pd) -> bool
    requires { (sound_bytes t.now ≡ true) × (q.count ≤ 4) }
    ensures { result ≡ is_silence (serve (settings_of t.now) time (asked_of duid.now false q) (current time (table_of t.now).records) Rebind).verdict }
{
    let ps = q.prefixes;
    !is_live(t, time, duid, q.iaid) & !all_gone(t, ps, q.count)
}
