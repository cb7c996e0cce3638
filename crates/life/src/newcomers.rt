// Routers whose DUIDs have 130 and 3 bytes, Client IDs of 2 to 131 at the box, and the ends of what is held.
ghost use Rattle.std.specs.Prelude.{◌+◌, ◌^◌, ◌<◌, ◌≤◌};

use crate::ends::{BoxEnd, RouterEnd};
use crate::texts::stranger;
use rules::Kind;
use std::io;
use std::io::Print;

// A router starts, may not send in its first minute, and binds a prefix.
fn binds<'a, P: Print>(
    router: &mut RouterEnd<'a, P>,
    the_box: &mut BoxEnd<'a, P>,
    duid: &[u8],
    iaid: u32,
    wanted: u64,
    time: u64,
) -> io::Result<()>
    requires { time + 64 < 2 ^ 48 }
{
    router.starts(duid, iaid, wanted, time)?;
    router.sends(Kind::Solicit, time + 60, &mut [0u8; 512])?;
    router.exchanges(the_box, Kind::Solicit, time + 61, time + 62)?;
    router.exchanges(the_box, Kind::Request, time + 63, time + 64)
}

// Solicits with Client IDs of 2, 3, 130 and 131 bytes.
fn strangers(the_box: &mut BoxEnd<impl Print>) -> io::Result<()> {
    let cases = [
        (2, " with a Client ID of 2"),
        (3, " with a Client ID of 3"),
        (130, " with a Client ID of 130"),
        (131, " with a Client ID of 131"),
    ];
    for (n, how) in cases {
        let mut room = [0u8; 155];
        let solicit = stranger(n, &mut room);
        the_box.hears(2300, solicit, how, &mut [0u8; 512])?;
    }
    Ok(())
}

// What a router holds ends a second before the box's record does, and neither counts in its last second.
fn runs_out<'a, P: Print>(
    router: &RouterEnd<'a, P>,
    the_box: &BoxEnd<'a, P>,
    end: u64,
) -> io::Result<()>
    requires { (1 ≤ end) × (end < 2 ^ 48) }
{
    router.holds(end - 1)?;
    router.holds(end)?;
    the_box.counts(end)?;
    the_box.counts(end + 1)
}

// The longest DUID, and no wanted length; the shortest, and the longest length.
pub fn newcomers<'a, P: Print>(rt: &'a P, the_box: &mut BoxEnd<'a, P>) -> io::Result<()> {
    let state = [0u8; 384];
    let mut long = RouterEnd { rt, state };
    let mut short = RouterEnd { rt, state };
    binds(&mut long, the_box, &[7u8; 130], 0xffff_ffff, 0, 2100)?;
    binds(&mut short, the_box, &[7u8; 3], 0, 64, 2200)?;
    the_box.counts(2264)?;
    strangers(the_box)?;
    runs_out(&long, the_box, 3063)?;
    runs_out(&short, the_box, 3163)
}
