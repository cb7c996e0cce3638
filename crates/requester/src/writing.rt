// The message of the open exchange, from the state: what is sent first, and again.
#![tactic(auto, using(crate::proofs::Message::open_long))]

ghost use Rattle.std.specs.Prelude.{◌≡◌, [], ◌≤◌, length};
ghost use Rattle.rules.specs.Words.{part};
ghost use Rattle.rules.specs.Router.{wants_server, lists};
ghost use Rattle.rules.specs.RouterBytes.{lease_of, router_of};
ghost use Rattle.values.specs.Values.{listed_of, ia_of, Able};
ghost use Rattle.requester.specs.Written.{Open, exchange_in, HeadOf, first_for, ia_asked, query_of, Put};

use print::message::{Head, write_message};
use rules::Kind;
use state::reads::open_kind;
use state::{DUID, IAID, NEXT, SENT, SERVER, WANTED};
use values::{IaPrefix, Pd};

// The kind of the open exchange.
fn kind_of(t: &[u8]) -> Kind
    requires { Open t.now }
    ensures { result ≡ (exchange_in (router_of t.now)).kind }
{
    open_kind(t).unwrap()
}

// Whether a message of that kind has a Server ID.
#[tactic(auto, unfolding(rules::specs::Identity::identity_rows))]
fn wants_server(kind: Kind) -> bool
    ensures { result ≡ wants_server kind }
{
    match kind {
        Kind::Solicit | Kind::Rebind => false,
        Kind::Request | Kind::Renew | Kind::Release => true,
    }
}

// Its type and number, and whether it has a Server ID and an Option Request.
fn head_of(t: &[u8]) -> Head
    requires { Open t.now }
    ensures { HeadOf (router_of t.now) result }
{
    let kind = kind_of(t);
    let next = cells::get(t, NEXT, 4);
    Head {
        kind: u8::from(kind),
        number: ((next + 0xFF_FFFF) % 0x100_0000) as u32,
        server: wants_server(kind),
        asks: kind != Kind::Release,
        says: false,
        status: 0,
        pd: true,
    }
}

// A zero prefix with the wanted length.
fn wanted(t: &[u8]) -> IaPrefix
    requires { length t.now ≡ 384 }
    ensures { listed_of result [] ≡ first_for (router_of t.now).wanted None }
{
    let length = cells::get(t, WANTED, 1) as usize;
    let bits = [0u8; 16];
    IaPrefix {
        preferred: 0,
        valid: 0,
        length,
        bits,
        cut: 0,
        out: bits,
    }
}

// The prefix that it sends, with the excluded one.
fn carried(t: &[u8]) -> IaPrefix
    requires { length t.now ≡ 384 }
    ensures { listed_of result [] ≡ first_for 0 (Some (lease_of (part 347 34 t.now))) }
{
    let bits = cells::bytes_at(t, SENT);
    let length = cells::get(t, SENT + 16, 1) as usize;
    let out = cells::bytes_at(t, SENT + 17);
    let cut = cells::get(t, SENT + 33, 1) as usize;
    IaPrefix {
        preferred: 0,
        valid: 0,
        length,
        bits,
        cut,
        out,
    }
}

// The prefix that stands in its IA_PD.
fn first_of(t: &[u8]) -> IaPrefix
    requires { Open t.now }
    ensures { listed_of result [] ≡ first_for (router_of t.now).wanted (exchange_in (router_of t.now)).sent }
{
    match kind_of(t) {
        Kind::Solicit | Kind::Request => wanted(t),
        Kind::Renew | Kind::Rebind | Kind::Release => carried(t),
    }
}

// How many stand there: none, where no length is wanted.
fn count_of(t: &[u8]) -> usize
    requires { Open t.now }
    ensures { result ≡ length (lists (router_of t.now).wanted (exchange_in (router_of t.now)).sent) }
{
    match kind_of(t) {
        Kind::Solicit | Kind::Request => usize::from(cells::get(t, WANTED, 1) != 0),
        Kind::Renew | Kind::Rebind | Kind::Release => 1,
    }
}

// Its IA_PD.
fn pd_of(t: &[u8]) -> Pd
    requires { Open t.now }
    ensures { (ia_of result ≡ ia_asked (router_of t.now)) × Able result }
{
    let x = first_of(t);
    let prefixes = [x; 5];
    let iaid = cells::get(t, IAID, 4) as u32;
    Pd {
        iaid,
        t1: 0,
        t2: 0,
        count: count_of(t),
        prefixes,
        says: false,
        status: 0,
    }
}

// The whole message at the front of the room.
pub fn put_open(out: &mut [u8], t: &[u8]) -> usize
    requires { Open t.now × (344 ≤ length out.old) }
    ensures { Put (query_of t.now) result out.old out.new }
{
    let h = head_of(t);
    let d = pd_of(t);
    let c = DUID + 1 + cells::get(t, DUID, 1) as usize;
    let s = SERVER + 1 + cells::get(t, SERVER, 1) as usize;
    write_message(out, h, &t[DUID + 1..c], &t[SERVER + 1..s], d)
}
