// The router receives: a message is judged, and the one awaited closes the exchange.
#![tactic(auto)]

ghost use Rattle.std.specs.Prelude.{◌≡◌, true, [], ◌<◌, ◌^◌};
ghost use Rattle.rules.specs.Words.{first};
ghost use Rattle.rules.specs.Clock.{plus};
ghost use Rattle.rules.specs.Message.{listed_at, ia_at, read};
ghost use Rattle.rules.specs.Identity.{kind_of};
ghost use Rattle.rules.specs.Box.{ia_of};
ghost use Rattle.rules.specs.Router.{takes, held_until, taken, held_after};
ghost use Rattle.rules.specs.RouterBytes.{held_bytes, router_of};
ghost use Rattle.rules.specs.Lent.{ended, router_received, word_of};
ghost use Rattle.laws.specs.Formed.{PdFormed, PrefixFormed};
ghost use Rattle.laws.specs.Refusals.{refused_by};
ghost use Rattle.values.specs.Values.{lease_of, lease_encodes, listed_of};
ghost use Rattle.receiving.specs.Received.{judged, Accepted, taken_in, server_told};

use clock::{Lifetime, Moment};
use heard::only;
use rules::{Refusal, Spot};
use state::judge::by_state;
use values::IaPrefix;
use wire::content::prefix_at;
use wire::find::content;
use wire::options::Options;

// 9, 1, 14: why the message isn't taken.
fn judge(t: &[u8], time: u64, msg: &[u8]) -> Result<(), Refusal>
    ensures { refused_by result ≡ judged t.now time msg.now }
{
    by_state(t, time)?;
    if !awaited::awaited(t, msg) {
        return Err(Refusal::Unawaited);
    }
    Ok(())
}

// Valid above 0, preferred at most valid, and zero bits after the length.
fn takes(x: IaPrefix) -> bool
    ensures { result ≡ takes (listed_of x []) }
{
    let bits = x.bits;
    (0 < x.valid) & (x.preferred <= x.valid) & prefix::whole::zero_after16(bits, x.length)
}

// Whether an IA Prefix of the message is taken.
fn is_taken(msg: &[u8], p: Spot) -> bool
    requires { PrefixFormed msg.now p.start p.len }
    ensures { result ≡ takes (listed_at msg.now (Some p)) }
{
    takes(prefix_at(msg, p.start, p.len))
}

// The first IA Prefix of the IA_PD that is taken.
fn first_taken(msg: &[u8], o: Spot) -> Option<Spot>
    requires { PdFormed msg.now o.start o.len }
    ensures { result ≡ taken_in msg.now o.start o.len }
{
    Options::new(msg, o.start + 12, o.start + o.len, 26).find(|p| is_taken(msg, *p))
}

// The hold on a prefix from the moment of first sending on, if its end is after now.
fn hold_of(x: IaPrefix, began: u64, time: u64) -> [u8; 43]
    requires { (began < 2 ^ 48) × (lease_encodes x ≡ true) }
    ensures { result ≡ held_bytes (held_until time (lease_of x) (plus began x.valid)) }
{
    let end = Moment(began).plus(Lifetime(x.valid));
    if !end.after(Moment(time)) {
        return [0u8; 43];
    }
    let bits = x.bits;
    let out = x.out;
    state::hold::made(bits, x.length as u8, out, x.cut as u8, end.0)
}

// The hold that the IA_PD gives.
fn taken(msg: &[u8], o: Spot, began: u64, time: u64) -> [u8; 43]
    requires { PdFormed msg.now o.start o.len × (began < 2 ^ 48) }
    ensures { result ≡ held_bytes (taken time began (first takes (ia_at msg.now (Some o)).listed)) }
{
    match first_taken(msg, o) {
        Some(p) => hold_of(prefix_at(msg, p.start, p.len), began, time),
        None => [0u8; 43],
    }
}

// What is held afterwards. From an Advertise or a Release's Reply nothing is taken.
fn held_after(t: &[u8], time: u64, msg: &[u8], kind: u64) -> [u8; 43]
    requires { Accepted t.now msg.now kind }
    ensures { result ≡ held_bytes (held_after (kind_of kind) (router_of t.now) time (first takes (ia_of (read msg.now)).listed)) }
{
    if (kind == 1) | (kind == 8) {
        return state::hold::kept(t);
    }
    let began = cells::get(t, 16, 8);
    match only(msg, 25) {
        Some(o) => taken(msg, o, began, time),
        None => [0u8; 43],
    }
}

// The server to remember, from an Advertise or a Rebind's Reply; empty for the known one.
fn server_after(msg: &[u8], kind: u64) -> &[u8]
    ensures { result.now ≡ server_told kind msg.now }
{
    if (kind != 1) & (kind != 6) {
        return &msg[..0];
    }
    content(msg, only(msg, 2))
}

// The message awaited closes the exchange. Nothing is written out: the length is 0.
pub fn receive(t: &mut [u8], time: u64, msg: &[u8]) -> Result<usize, Refusal>
    ensures word { ended (word_of result) t.new [] ≡ router_received t.old time msg.now }
    ensures refusal { refused_by result ≡ judged t.old time msg.now }
{
    judge(t, time, msg)?;
    let kind = cells::get(t, 346, 1);
    let held = held_after(t, time, msg, kind);
    state::change::accept(t, time, server_after(msg, kind), held);
    Ok(0)
}
