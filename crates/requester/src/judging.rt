// What the router refuses, by its state, the time and the room. Nothing is written here.
#![tactic(auto, using(laws::specs::RouterRepresent::lent_length))]

ghost use Rattle.std.specs.Prelude.{◌≡◌, true};
ghost use Rattle.rules.specs.Router.{allows, is_open};
ghost use Rattle.rules.specs.RouterBytes.{router_of, sound_router_bytes};
ghost use Rattle.laws.specs.Refusals.{refused_by};
ghost use Rattle.requester.specs.Judged.{by_times, by_sending, by_resending, by_abandoning};

use rules::{Kind, Refusal};
use state::judge::by_state;
use state::reads::{is_held, is_known, open_kind};
use state::{BEGAN, FREED, STARTED};

// Whether an exchange is open.
fn is_open(t: &[u8]) -> bool
    requires { sound_router_bytes t.now ≡ true }
    ensures { result ≡ is_open (router_of t.now).exchange }
{
    open_kind(t).is_some()
}

// 11, 12: by the open exchange, and by what happened too short a time ago.
fn by_times(t: &[u8], time: u64) -> Result<(), Refusal>
    requires { sound_router_bytes t.now ≡ true }
    ensures { refused_by result ≡ by_times t.now time }
{
    if is_open(t) {
        return Err(Refusal::Busy);
    }
    let started = cells::get(t, STARTED, 8);
    let freed = cells::get(t, FREED, 8);
    let began = cells::get(t, BEGAN, 8);
    if (time <= started + 60) | (time <= freed + 60) | (time <= began) {
        return Err(Refusal::Early);
    }
    Ok(())
}

// Whether an exchange of that kind has the server or the prefix that it needs.
fn allowed(t: &[u8], kind: Kind, time: u64) -> bool
    requires { sound_router_bytes t.now ≡ true }
    ensures { result ≡ allows kind (router_of t.now) time }
{
    match kind {
        Kind::Solicit => true,
        Kind::Request => is_known(t),
        Kind::Renew | Kind::Rebind | Kind::Release => is_held(t, time),
    }
}

// A sending: 9, 1, 2, 11, 12, 13.
pub fn by_sending(t: &[u8], kind: Kind, time: u64, room: usize) -> Result<(), Refusal>
    ensures { refused_by result ≡ by_sending kind t.now time room }
{
    by_state(t, time)?;
    if room < 512 {
        return Err(Refusal::Room);
    }
    by_times(t, time)?;
    if !allowed(t, kind, time) {
        return Err(Refusal::State);
    }
    Ok(())
}

// Abandoning: 9, 1, 13.
pub fn by_abandoning(t: &[u8], time: u64) -> Result<(), Refusal>
    ensures { refused_by result ≡ by_abandoning t.now time }
{
    by_state(t, time)?;
    if !is_open(t) {
        return Err(Refusal::State);
    }
    Ok(())
}

// Resending: 9, 1, 2, 13.
pub fn by_resending(t: &[u8], time: u64, room: usize) -> Result<(), Refusal>
    ensures { refused_by result ≡ by_resending t.now time room }
{
    by_state(t, time)?;
    if room < 512 {
        return Err(Refusal::Room);
    }
    if !is_open(t) {
        return Err(Refusal::State);
    }
    Ok(())
}
