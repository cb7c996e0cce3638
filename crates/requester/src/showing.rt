// What is asked of the state; it stays as it is.
ghost use Rattle.std.specs.Prelude.{◌≡◌, [], ◌∷◌, ◌++◌, ltb, length};
ghost use Rattle.rules.specs.RouterBytes.{hold_size};
ghost use Rattle.rules.specs.Lent.{ended, word_of, router_shown};
ghost use Rattle.laws.specs.Refusals.{refused_by, number};
ghost use Rattle.state.specs.Judged.{state_tests};

use rules::Refusal;
use state::judge::by_state;
use state::reads::is_held;
use state::{KIND, LEASE};

// What is held and hasn't ended; nothing held: nothing.
pub fn held(t: &[u8], time: u64, out: &mut [u8]) -> Result<usize, Refusal>
    ensures word { ended (word_of result) t.now out.new ≡ router_shown t.now time out.old }
    ensures refusal { refused_by result ≡ number (state_tests t.now time ++ (2, ltb (length out.old) hold_size) ∷ []) }
{
    by_state(t, time)?;
    if out.len() < 42 {
        return Err(Refusal::Room);
    }
    if !is_held(t, time) {
        return Ok(0);
    }
    cells::copy(out, 0, &t[LEASE..KIND]);
    Ok(42)
}
