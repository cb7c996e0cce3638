// A router's state in its 384 lent bytes: whether it is sound, what is refused by it, and its changes.
#![tactic(auto)]

pub mod change; // change.rt: starting, sending, receiving
pub mod hold; // hold.rt: what is held, in its bytes
pub mod judge; // judge.rt: what is refused by the state and the time
pub mod reads; // reads.rt: what a sound state says

ghost use Rattle.std.specs.Prelude.{◌≡◌, ◌+◌, ◌≤◌, ◌<◌, length};
ghost use Rattle.rules.specs.Words.{num_at};
ghost use Rattle.rules.specs.Identity.{type_of};
ghost use Rattle.rules.specs.RouterBytes.{sound_router_bytes};
ghost use Rattle.laws.specs.Flat.{duid_in};
ghost use Rattle.laws.specs.RouterFlat.{except_in, lease_in, server_in, held_in, exchange_in, numbers_in};

use rules::Kind;

// Where each thing stands in the state, as crates/rules/specs/RouterBytes.antt lays it out.
pub const LAST: usize = 0; // the last time, 8 bytes

pub const STARTED: usize = 8; // the start, 8

pub const BEGAN: usize = 16; // the beginning of the latest exchange, 8

pub const FREED: usize = 24; // the last sending of a Release, 8

pub const NEXT: usize = 32; // the next transaction number, 4

pub const WANTED: usize = 36; // the wanted length, 1

pub const IAID: usize = 37; // 4

pub const DUID: usize = 41; // its length 1, 130

pub const SERVER: usize = 172; // the length of the server's DUID 1, 130

pub const HELD: usize = 303; // whether a prefix is held, 1

pub const LEASE: usize = 304; // the delegation held, 34

pub const END: usize = 338; // its end, 8

pub const KIND: usize = 346; // the type of the open exchange, 1

pub const SENT: usize = 347; // the delegation that it sends, 34

// The n bytes from `at` are a DUID, and zeros follow up to 130.
// The box's twin (sound::good_duid) stays apart: what is below both, cells, knows bytes and no DUIDs, and that one is a bar of speed.
fn good_duid(t: &[u8], at: usize, n: usize) -> bool
    requires { at + 130 ≤ length t.now }
    ensures { result ≡ duid_in at n t.now }
{
    if 130 < n {
        return false;
    }
    (3 <= n) & cells::all_zero(t, at + n, 130 - n)
}

// The excluded prefix of the delegation from `at` has an encoding, or is none.
fn good_except(t: &[u8], at: usize) -> bool
    requires { at + 34 ≤ length t.now }
    ensures { result ≡ except_in at t.now }
{
    let b = cells::get(t, at + 33, 1) as usize;
    if b == 0 {
        return cells::all_zero(t, at + 17, 17);
    }
    let p = cells::bytes_at(t, at);
    let a = cells::get(t, at + 16, 1) as usize;
    prefix::exclude::encodable(p, a, cells::bytes_at(t, at + 17), b)
}

// The 34 bytes from `at` are a good delegation.
#[tactic(auto, unfolding(laws::specs::RouterFlat::lease_in))]
fn good_lease(t: &[u8], at: usize) -> bool
    requires { at + 34 ≤ length t.now }
    ensures { result ≡ lease_in at t.now }
{
    let p = cells::bytes_at(t, at);
    let a = cells::get(t, at + 16, 1) as usize;
    (a <= 128) & good_except(t, at) & prefix::whole::zero_after16(p, a)
}

// The times, the transaction number and the wanted length.
#[tactic(auto, unfolding(laws::specs::RouterFlat::numbers_in))]
fn good_numbers(t: &[u8; 384]) -> bool
    ensures { result ≡ numbers_in t.now }
{
    let wanted = cells::get(t, WANTED, 1);
    let started = cells::get(t, STARTED, 8);
    let began = cells::get(t, BEGAN, 8);
    let freed = cells::get(t, FREED, 8);
    let last = cells::get(t, LAST, 8);
    let next = cells::get(t, NEXT, 4);
    (wanted <= 64)
        & (started <= last)
        & (began <= last)
        & (freed <= last)
        & (last < 0x1_0000_0000_0000)
        & (next < 0x100_0000)
}

// The server's DUID, or none.
fn good_server(t: &[u8; 384]) -> bool
    ensures { result ≡ server_in t.now }
{
    let n = cells::get(t, SERVER, 1) as usize;
    if n == 0 {
        return cells::all_zero(t, SERVER, 131);
    }
    good_duid(t, SERVER + 1, n)
}

// The hold, or none. Anything held has a server.
fn good_held(t: &[u8; 384]) -> bool
    ensures { result ≡ held_in t.now }
{
    let held = cells::get(t, HELD, 1);
    if held == 0 {
        return cells::all_zero(t, HELD, 43);
    }
    let server = cells::get(t, SERVER, 1);
    let end = cells::get(t, END, 8);
    (held == 1)
        & (server != 0)
        & good_lease(t, LEASE)
        & ((end < 0x2_0000_0000_0000) | (end == 0xFFFF_FFFF_FFFF_FFFF))
}

// The open exchange has the server and the delegation that its kind wants.
fn good_open(t: &[u8; 384], kind: Kind) -> bool
    requires { num_at t.now 346 1 ≡ type_of kind }
    ensures { result ≡ exchange_in t.now }
{
    let server = cells::get(t, SERVER, 1) != 0;
    match kind {
        Kind::Solicit => cells::all_zero(t, SENT, 34),
        Kind::Request => server & cells::all_zero(t, SENT, 34),
        Kind::Rebind => good_lease(t, SENT),
        Kind::Renew | Kind::Release => server & good_lease(t, SENT),
    }
}

// The exchange, or none.
fn good_exchange(t: &[u8; 384]) -> bool
    ensures { result ≡ exchange_in t.now }
{
    let k = cells::get(t, KIND, 1);
    match Kind::try_from(k as u8) {
        Ok(kind) => good_open(t, kind),
        Err(_) => (k == 0) & cells::all_zero(t, SENT, 34),
    }
}

// Whether the state is the representation of a sound one.
pub fn sound(t: &[u8; 384]) -> bool
    ensures { result ≡ sound_router_bytes t.now }
{
    let n = cells::get(t, DUID, 1) as usize;
    good_numbers(t)
        & good_duid(t, DUID + 1, n)
        & good_server(t)
        & good_held(t)
        & good_exchange(t)
        & cells::all_zero(t, 381, 3)
}
