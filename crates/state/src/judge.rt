// What the router refuses by its state and the time, whatever is asked of it. Nothing is written here.
ghost use Rattle.std.specs.Prelude.{◌≡◌};
ghost use Rattle.laws.specs.Refusals.{refused_by};
ghost use Rattle.state.specs.Judged.{by_state};

use crate::LAST;
use rules::Refusal;

// 9, 1.
pub fn by_state(t: &[u8], time: u64) -> Result<(), Refusal>
    ensures { refused_by result ≡ by_state t.now time }
{
    let Ok(s) = <&[u8; 384]>::try_from(t) else {
        return Err(Refusal::Unsound);
    };
    if !crate::sound(s) {
        return Err(Refusal::Unsound);
    }
    let last = cells::get(s, LAST, 8);
    if (time < last) | (0x1_0000_0000_0000 <= time) {
        return Err(Refusal::Time);
    }
    Ok(())
}
