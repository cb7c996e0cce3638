// What a sound state says, beside its numbers.
// That it is sound stands in clauses: a struct of the borrowed bytes with that fact would be made anew around each change of them.
#![tactic(auto, using(laws::specs::RouterRepresent::lent_length))]

ghost use Rattle.std.specs.Prelude.{◌≡◌, true, option_map};
ghost use Rattle.rules.specs.Router.{known, holds, is_held};
ghost use Rattle.rules.specs.RouterBytes.{router_of, sound_router_bytes};

use crate::{END, HELD, KIND, SERVER};
use rules::Kind;

// The kind of the open exchange. Its type stands in the state, or 0, which is no kind's.
pub fn open_kind(t: &[u8]) -> Option<Kind>
    requires { sound_router_bytes t.now ≡ true }
    ensures { result ≡ option_map (λ x. x.kind) (router_of t.now).exchange }
{
    Kind::try_from(cells::get(t, KIND, 1) as u8).ok()
}

// Whether a server is known.
pub fn is_known(t: &[u8]) -> bool
    requires { sound_router_bytes t.now ≡ true }
    ensures { result ≡ known (router_of t.now).server }
{
    cells::get(t, SERVER, 1) != 0
}

// Whether a prefix is held whose end hasn't come.
pub fn is_held(t: &[u8], time: u64) -> bool
    requires { sound_router_bytes t.now ≡ true }
    ensures { result ≡ is_held (holds time (router_of t.now).held) }
{
    (cells::get(t, HELD, 1) != 0) & (time < cells::get(t, END, 8))
}
