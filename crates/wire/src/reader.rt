// A reader: a message and a place in it. Each function takes it apart and calls one over the slice and the number.
ghost use Rattle.std.specs.Prelude.{◌≡◌, length};
ghost use Rattle.rules.specs.Options.{step_at};

use crate::walk::step_all;
use rules::Step;

#[derive(Clone, Copy)]
pub struct Reader<'a> {
    pub src: &'a [u8],
    pub at: usize,
}

// At the start of a message.
pub fn new<'a>(src: &'a [u8]) -> Reader<'a>
    ensures { (result.src ≡ src.entry) × (result.at ≡ 0) }
{
    Reader { src, at: 0 }
}

// The same message at another place.
pub fn moved<'a>(r: Reader<'a>, at: usize) -> Reader<'a>
    ensures { (result.src ≡ r.entry.src) × (result.at ≡ at) }
{
    Reader { src: r.src, at }
}

// What stands at the reader's place.
pub fn next<'a>(r: Reader<'a>) -> Step
    ensures { result ≡ step_at r.entry.src.now r.entry.at (length r.entry.src.now) }
{
    step_all(r.src, r.at)
}

// What stands after the header of a message: its first option.
pub fn first_step(msg: &[u8]) -> Step
    ensures { result ≡ step_at msg.now 4 (length msg.now) }
{
    next(moved(new(msg), 4))
}
