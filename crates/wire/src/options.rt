// The options of one code in an area, one after another.
ghost use Rattle.std.specs.Prelude.{◌≡◌, ◌≤◌, length};

use crate::walk::step_at;
use rules::{Spot, Step};

// A place in an area of a message, and the code of the options that are wanted from there on.
#[derive(Clone, Copy)]
pub struct Options<'a> {
    pub msg: &'a [u8],
    pub at: usize,
    pub end: usize,
    pub code: usize,
    ghost within: { end ≤ length msg.now },
}

impl<'a> Options<'a> {
    // The options of a code in an area.
    pub fn new(msg: &'a [u8], at: usize, end: usize, code: usize) -> Options<'a>
        requires { end ≤ length msg.now }
        ensures { (result.msg ≡ msg.entry) × (result.at ≡ at) × (result.end ≡ end) × (result.code ≡ code) }
    {
        Options { msg, at, end, code }
    }
}

impl<'a> Iterator for Options<'a> {
    ghost use Rattle.std.specs.Iterator.{YieldsFirst, item_count};
    ghost use Rattle.wire.specs.Spots.{left};

    type Item = Spot;

    ghost next_gives = { YieldsFirst left };

    ghost remaining = { item_count left };

    fn next(&mut self) -> Option<Spot> {
        loop {
            let place = self.at;
            match step_at(self.msg, place, self.end) {
                Step::Opt {
                    code,
                    start,
                    len,
                    next,
                } => {
                    self.at = next;
                    if code == self.code {
                        return Some(Spot { place, start, len });
                    }
                }
                Step::End | Step::Bad(_) => {
                    return None;
                }
            }
        }
    }
}
