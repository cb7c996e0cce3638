// What starting, sending and receiving change in a router's state: each leaves the bytes of the state that the rules name.
#![tactic(auto, using(laws::specs::RouterRepresent::lent_length))]

ghost use Rattle.std.specs.Prelude.{◌≡◌, true, ◌∷◌, ◌+◌, ◌≤◌, length, replicate, Option};
ghost use Rattle.rules.specs.Words.{splice, be};
ghost use Rattle.rules.specs.Identity.{identity, type_of};
ghost use Rattle.rules.specs.Router.{Hold, holds, carries, is_open, begun, again, closed, open_of};
ghost use Rattle.rules.specs.RouterBytes.{duid_bytes, held_bytes, sent_bytes, router_bytes, router_of, sound_router_bytes};
ghost use Rattle.laws.specs.RouterChange.{fresh, server_given, stamped};

use crate::reads::{is_held, open_kind};
use crate::{
    BEGAN, DUID, END, FREED, HELD, IAID, KIND, LAST, LEASE, NEXT, SENT, SERVER, STARTED, WANTED,
};
use rules::Kind;

// A DUID behind its length, with zeros after it up to 130.
fn put_duid(t: &mut [u8], at: usize, d: &[u8])
    requires { (at + 131 ≤ length t.old) × (length d.now ≤ 130) }
    ensures { t.new ≡ splice at (duid_bytes d.now) t.old }
{
    cells::put(t, at, 1, d.len() as u64);
    cells::put_filled(t, at + 1, 130, d);
}

// The four times of a start.
fn stamp(t: &mut [u8; 384], start: u64)
    ensures { t.new ≡ stamped start t.old }
{
    cells::put(t, LAST, 8, start);
    cells::put(t, STARTED, 8, start);
    cells::put(t, BEGAN, 8, start);
    cells::put(t, FREED, 8, start);
}

// A fresh state. Its last sending of a Release is its start.
pub fn start(t: &mut [u8; 384], duid: &[u8], iaid: u32, wanted: u64, time: u64)
    requires { length duid.now ≤ 130 }
    ensures { t.new ≡ router_bytes (fresh (identity duid.now iaid) wanted time) }
{
    cells::clear(t, 0, 384);
    stamp(t, time);
    cells::put(t, WANTED, 1, wanted);
    cells::put(t, IAID, 4, iaid as u64);
    put_duid(t, DUID, duid);
}

// The held delegation while its end hasn't come. None: zeros.
fn lease(t: &[u8], time: u64) -> [u8; 34]
    requires { sound_router_bytes t.now ≡ true }
    ensures { result ≡ sent_bytes (holds time (router_of t.now).held) }
{
    if !is_held(t, time) {
        return [0u8; 34];
    }
    <[u8; 34]>::try_from(&t[LEASE..END]).unwrap()
}

// The delegation that a message of that kind carries.
fn carried(t: &[u8], kind: Kind, time: u64) -> [u8; 34]
    requires { sound_router_bytes t.now ≡ true }
    ensures { result ≡ sent_bytes (carries kind (holds time (router_of t.now).held)) }
{
    match kind {
        Kind::Solicit | Kind::Request => [0u8; 34],
        Kind::Renew | Kind::Rebind | Kind::Release => lease(t, time),
    }
}

// The exchange's first times, and the next number.
// This and the writes below take the slice as lent, since an operation refuses other lengths by 9 (Lent.of_router), and no array.
fn date(t: &mut [u8], time: u64, next: u64)
    requires { length t.old ≡ 384 }
    ensures { t.new ≡ splice 32 (be 4 next) (splice 16 (be 8 time) (splice 0 (be 8 time) t.old)) }
{
    cells::put(t, LAST, 8, time);
    cells::put(t, BEGAN, 8, time);
    cells::put(t, NEXT, 4, next);
}

// The open exchange, by its kind's type and the delegation that it sends.
fn open(t: &mut [u8], kind: Kind, sent: [u8; 34])
    requires { length t.old ≡ 384 }
    ensures { t.new ≡ splice 346 (type_of kind ∷ sent) t.old }
{
    cells::put(t, KIND, 1, u64::from(u8::from(kind)));
    cells::copy(t, SENT, &sent);
}

// The last sending of a Release, and nothing held.
fn free(t: &mut [u8], time: u64)
    requires { length t.old ≡ 384 }
    ensures { t.new ≡ splice 303 (replicate 43 0) (splice 24 (be 8 time) t.old) }
{
    cells::put(t, FREED, 8, time);
    cells::clear(t, HELD, 43);
}

// A new exchange of that kind.
pub fn begin(t: &mut [u8], kind: Kind, time: u64)
    requires { sound_router_bytes t.old ≡ true }
    ensures { t.new ≡ router_bytes (begun kind (router_of t.old) time) }
{
    let sent = carried(t, kind, time);
    let next = (cells::get(t, NEXT, 4) + 1) % 0x100_0000;
    date(t, time, next);
    open(t, kind, sent);
    if kind == Kind::Release {
        free(t, time);
    }
}

// The open exchange sent again.
pub fn again(t: &mut [u8], time: u64)
    requires { (sound_router_bytes t.old ≡ true) × (is_open (router_of t.old).exchange ≡ true) }
    ensures { t.new ≡ router_bytes (again (router_of t.old) time (open_of (router_of t.old).exchange)) }
{
    let kind = open_kind(t);
    cells::put(t, LAST, 8, time);
    if kind == Some(Kind::Release) {
        cells::put(t, FREED, 8, time);
    }
}

// No exchange open, at a time.
fn finish(t: &mut [u8], time: u64)
    requires { length t.old ≡ 384 }
    ensures { t.new ≡ splice 346 (replicate 35 0) (splice 0 (be 8 time) t.old) }
{
    cells::put(t, LAST, 8, time);
    cells::clear(t, KIND, 35);
}

// The open exchange abandoned.
pub fn close(t: &mut [u8], time: u64)
    requires { sound_router_bytes t.old ≡ true }
    ensures { t.new ≡ router_bytes (closed (router_of t.old) time (router_of t.old).server (router_of t.old).held) }
{
    finish(t, time);
}

// The open exchange closed by an acceptance: what is held afterwards, in its bytes, and the server to remember, or empty for the known one.
pub fn accept(t: &mut [u8], time: u64, server: &[u8], held: [u8; 43])
    requires { (sound_router_bytes t.old ≡ true) × (length server.now ≤ 130) }
    ensures { (o : Option Hold) → held ≡ held_bytes o
        → t.new ≡ router_bytes (closed (router_of t.old) time (server_given (router_of t.old).server server.now) o) }
{
    cells::copy(t, HELD, &held);
    finish(t, time);
    if !server.is_empty() {
        put_duid(t, SERVER, server);
    }
}
