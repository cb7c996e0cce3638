// The walk over an option area: what stands at a place, and the numbers there.
ghost use Rattle.std.specs.Prelude.{◌≡◌, ◌+◌, ◌*◌, ◌≤◌, ◌<◌, length, get_or};
ghost use Rattle.rules.specs.Words.{u16_at};
ghost use Rattle.rules.specs.Options.{step_at};

use rules::Step;

// The byte at a place, and the number in the two bytes there; past the end every byte is 0.
pub fn u8_at(msg: &[u8], at: usize) -> usize
    ensures { (result ≡ get_or msg.now at 0) × (result < 256) }
{
    if at < msg.len() {
        return usize::from(msg[at]);
    }
    0
}

pub fn u16_at(msg: &[u8], at: usize) -> usize
    ensures { (result ≡ u16_at msg.now at) × (result < 65536) }
{
    if at < msg.len() {
        return u8_at(msg, at) * 256 + u8_at(msg, at + 1);
    }
    0
}

// What stands at a place of an area that ends at `end`: an option, the area's end, or bytes that are no option.
pub fn step_at(msg: &[u8], at: usize, end: usize) -> Step
    requires { end ≤ length msg.now }
    ensures { result ≡ step_at msg.now at end }
{
    if end <= at {
        return Step::End;
    }
    if end - at < 4 {
        return Step::Bad(at);
    }
    let len = cells::get(msg, at + 2, 2) as usize;
    if end - at - 4 < len {
        return Step::Bad(at);
    }
    let code = cells::get(msg, at, 2) as usize;
    Step::Opt {
        code,
        start: at + 4,
        len,
        next: at + 4 + len,
    }
}

// The same, where the area ends with the message.
pub fn step_all(msg: &[u8], at: usize) -> Step
    ensures { result ≡ step_at msg.now at (length msg.now) }
{
    step_at(msg, at, msg.len())
}
