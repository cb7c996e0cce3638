// What a router holds, in its 43 bytes: as it is kept, or new. Nothing held is 43 zeros.
#![tactic(auto, using(laws::specs::RouterRepresent::lent_length))]

ghost use Rattle.std.specs.Prelude.{◌≡◌, true};
ghost use Rattle.rules.specs.Words.{num, splice, be};
ghost use Rattle.rules.specs.RouterBytes.{held_bytes, router_of, sound_router_bytes};
ghost use Rattle.laws.specs.RouterChange.{hold_given};

use crate::{HELD, KIND};

// What is held.
pub fn kept(t: &[u8]) -> [u8; 43]
    requires { sound_router_bytes t.now ≡ true }
    ensures { result ≡ held_bytes (router_of t.now).held }
{
    <[u8; 43]>::try_from(&t[HELD..KIND]).unwrap()
}

// The excluded prefix and its length.
fn less(h: [u8; 43], e: [u8; 16], b: u8) -> [u8; 43]
    ensures { result ≡ splice 34 (be 1 b) (splice 18 e h) }
{
    let mut d = h;
    cells::copy(&mut d, 18, &e);
    cells::put(&mut d, 34, 1, b as u64);
    d
}

// A prefix p of length a until `end`, without e of length b; no excluded prefix where b is 0.
pub fn made(p: [u8; 16], a: u8, e: [u8; 16], b: u8, end: u64) -> [u8; 43]
    ensures { result ≡ held_bytes (Some (hold_given (num p) a (num e) b end)) }
{
    let mut d = [0u8; 43];
    cells::put(&mut d, 0, 1, 1);
    cells::copy(&mut d, 1, &p);
    cells::put(&mut d, 17, 1, a as u64);
    cells::put(&mut d, 35, 8, end);
    if b == 0 { d } else { less(d, e, b) }
}
