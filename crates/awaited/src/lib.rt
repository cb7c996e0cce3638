// Whether a message is the one that a router's open exchange awaits. Nothing is written here.
#![tactic(auto)]

ghost use Rattle.std.specs.Prelude.{◌≡◌, true, not, ◌&&◌, ◌||◌, ◌+◌, ◌≤◌, length};
ghost use Rattle.rules.specs.Words.{all, any, part, same_bytes};
ghost use Rattle.rules.specs.Refusals.{wrong_size};
ghost use Rattle.rules.specs.Message.{listed_at, ia_at, read, well_formed};
ghost use Rattle.rules.specs.Identity.{served, kind_of, stands};
ghost use Rattle.rules.specs.Router.{good_ia, good_ias, says6, may_offer, from_server, awaited};
ghost use Rattle.rules.specs.RouterBytes.{duid_at, router_of, sound_router_bytes};
ghost use Rattle.laws.specs.Formed.{PdFormed};
ghost use Rattle.awaited.specs.Parts.{DuidIn, answers_to, pd_says6};

use heard::only;
use rules::Spot;
use wire::check::{well_formed, wrong_size};
use wire::content::u32_at;
use wire::options::Options;
use wire::says::has_status;
use wire::walk::u8_at;

// The size and the form.
fn formed(msg: &[u8]) -> bool
    ensures { result ≡ not (wrong_size msg.now) && well_formed msg.now }
{
    !wrong_size(msg) & well_formed(msg)
}

// The type, and the number of the open exchange, which is the one before the next.
fn answers(t: &[u8], msg: &[u8], kind: u64) -> bool
    requires { (length t.now ≡ 384) × (4 ≤ length msg.now) }
    ensures { result ≡ answers_to (kind_of kind) (router_of t.now).next (read msg.now) }
{
    let next = cells::get(t, 32, 4);
    let number = cells::get(msg, 1, 3);
    let answer = u8_at(msg, 0);
    (((kind == 1) & (answer == 2)) | ((kind != 1) & (answer == 7)))
        & (number == (next + 0xFF_FFFF) % 0x100_0000)
}

// Whether the DUID behind its length in the state is the content of that option.
fn is_duid(t: &[u8], at: usize, msg: &[u8], o: Spot) -> bool
    requires { DuidIn t.now at × (o.start + o.len ≤ length msg.now) }
    ensures { result ≡ same_bytes (duid_at t.now at) (part o.start o.len msg.now) }
{
    if cells::get(t, at, 1) as usize != o.len {
        return false;
    }
    cells::same_bytes(t, at + 1, &msg[o.start..o.start + o.len])
}

// One Client ID, the router's own.
fn own_client(t: &[u8], msg: &[u8]) -> bool
    requires { DuidIn t.now 41 }
    ensures { result ≡ stands true (read msg.now).clients && all (same_bytes (router_of t.now).me.duid) (read msg.now).clients }
{
    match only(msg, 1) {
        Some(o) => is_duid(t, 41, msg, o),
        None => false,
    }
}

// One Server ID; the known one for Request, Renew and Release.
fn from_server(t: &[u8], msg: &[u8], kind: u64) -> bool
    requires { DuidIn t.now 172 }
    ensures { result ≡ from_server (kind_of kind) (router_of t.now).server (read msg.now).servers }
{
    match only(msg, 2) {
        Some(o) => {
            let known = is_duid(t, 172, msg, o);
            (3 <= o.len) & (o.len <= 130) & ((kind == 1) | (kind == 6) | known)
        }
        None => false,
    }
}

// The IA_PD has the router's own IAID, and not T1 > T2 > 0.
fn good_pd(t: &[u8], msg: &[u8], o: Spot) -> bool
    requires { (length t.now ≡ 384) × PdFormed msg.now o.start o.len }
    ensures { result ≡ good_ia (router_of t.now).me.iaid (ia_at msg.now (Some o)) }
{
    let own = cells::get(t, 37, 4) as u32;
    let iaid = u32_at(msg, o.start);
    let t1 = u32_at(msg, o.start + 4);
    let t2 = u32_at(msg, o.start + 8);
    (iaid == own) & !((t2 < t1) & (0 < t2))
}

// Whether an IA Prefix has a Status Code NoPrefixAvail.
fn says_6(msg: &[u8], p: Spot) -> bool
    requires { p.start + p.len ≤ length msg.now }
    ensures { result ≡ says6 (listed_at msg.now (Some p)).statuses }
{
    has_status(msg, p.start + 25, p.start + p.len, 6)
}

// Whether some IA Prefix of the IA_PD does.
fn prefix_says_6(msg: &[u8], o: Spot) -> bool
    requires { PdFormed msg.now o.start o.len }
    ensures { result ≡ any (λ x. says6 x.statuses) (ia_at msg.now (Some o)).listed }
{
    Options::new(msg, o.start + 12, o.start + o.len, 26).any(|p| says_6(msg, p))
}

// NoPrefixAvail at any level.
fn no_prefix(msg: &[u8], o: Spot) -> bool
    requires { PdFormed msg.now o.start o.len }
    ensures { result ≡ says6 (read msg.now).statuses || pd_says6 (ia_at msg.now (Some o)) }
{
    let here = has_status(msg, 4, msg.len(), 6);
    let inside = has_status(msg, o.start + 12, o.start + o.len, 6);
    here | (inside | prefix_says_6(msg, o))
}

// For all but Release, one IA_PD, a good one; and no NoPrefixAvail in an Advertise.
fn offers(t: &[u8], msg: &[u8], kind: u64) -> bool
    requires { (length t.now ≡ 384) × (well_formed msg.now ≡ true) × (served kind ≡ true) }
    ensures { result ≡ good_ias (kind_of kind) (router_of t.now).me.iaid (read msg.now).ias && may_offer (kind_of kind) (read msg.now) }
{
    if kind == 8 {
        return true;
    }
    match only(msg, 25) {
        Some(o) => {
            let good = good_pd(t, msg, o);
            good & ((kind != 1) | !no_prefix(msg, o))
        }
        None => false,
    }
}

// Whether the message is the one awaited.
pub fn awaited(t: &[u8], msg: &[u8]) -> bool
    requires { sound_router_bytes t.now ≡ true }
    ensures { result ≡ awaited (router_of t.now) msg.now (read msg.now) (router_of t.now).exchange }
{
    let kind = cells::get(t, 346, 1);
    if (kind == 0) | !formed(msg) {
        return false;
    }
    answers(t, msg, kind) & own_client(t, msg) & from_server(t, msg, kind) & offers(t, msg, kind)
}
