// The options of one code in an area: how many, and the k-th; the content of one; and the message's Client ID.
ghost use Rattle.std.specs.Prelude.{◌≡◌, ◌≤◌, length};
ghost use Rattle.rules.specs.Options.{area_of, content, count, nth};
ghost use Rattle.wire.specs.Client.{client_stretch};
ghost use Rattle.wire.specs.Found.{Within};

use crate::options::Options;
use rules::Spot;

// How many options of the code w an area has.
pub fn count_of(msg: &[u8], at: usize, end: usize, w: usize) -> usize
    requires { end ≤ length msg.now }
    ensures { result ≡ count w (area_of msg.now at end) }
{
    Options::new(msg, at, end, w).count()
}

// The k-th option of the code w in an area.
pub fn find(msg: &[u8], at: usize, end: usize, w: usize, k: usize) -> Option<Spot>
    requires { end ≤ length msg.now }
    ensures { result ≡ nth w k (area_of msg.now at end) }
{
    Options::new(msg, at, end, w).nth(k)
}

// The content of an option, as that stretch of the message; of nothing, nothing.
pub fn content(msg: &[u8], f: Option<Spot>) -> &[u8]
    requires { Within (length msg.now) f }
    ensures { result.now ≡ content msg.now f }
{
    match f {
        Some(o) => &msg[o.start..o.start + o.len],
        None => &msg[..0],
    }
}

// The one Client ID of a message: empty where there isn't exactly one.
pub fn client_id(msg: &[u8]) -> &[u8]
    ensures { result.now ≡ client_stretch msg.now }
{
    if count_of(msg, 4, msg.len(), 1) != 1 {
        return &msg[..0];
    }
    content(msg, find(msg, 4, msg.len(), 1, 0))
}
