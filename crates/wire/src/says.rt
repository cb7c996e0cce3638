// What options say: whether an Option Request asks for PD Exclude, and whether a Status Code says k.
ghost use Rattle.std.specs.Prelude.{◌≡◌, ◌+◌, ◌≤◌, map, eqb, length};
ghost use Rattle.rules.specs.Words.{any, part};
ghost use Rattle.rules.specs.Options.{area_of, options};
ghost use Rattle.rules.specs.Message.{asks67, status_at};

use crate::options::Options;
use crate::walk::u16_at;

// Whether the Option Request with that content has code 67.
pub fn asks67(msg: &[u8], start: usize, len: usize) -> bool
    requires { start + len ≤ length msg.now }
    ensures { result ≡ asks67 (part start len msg.now) }
{
    msg[start..start + len]
        .chunks_exact(2)
        .any(|c| 67 == u16_at(c, 0))
}

// Whether some Status Code of an area says k.
pub fn has_status(msg: &[u8], at: usize, end: usize, k: usize) -> bool
    requires { end ≤ length msg.now }
    ensures { result ≡ any (eqb k) (map (status_at msg.now) (options 13 (area_of msg.now at end))) }
{
    Options::new(msg, at, end, 13).any(|o| k == u16_at(msg, o.start))
}
