// A router's life against the box, and the boundaries of times, DUIDs and lengths: each step is a line. What the lines must be
// was worked out from document 01.
#![tactic(auto)]

mod ends; // ends.rt: the two ends, each operation with its line
mod newcomers; // newcomers.rt: DUIDs of 2, 3, 130 and 131 bytes, and the ends of what is held
mod speak; // speak.rt: what the lines are made of
mod texts; // texts.rt: parts of a room, and messages that differ from those that were written

use crate::ends::{BoxEnd, RouterEnd};
use crate::newcomers::newcomers;
use crate::texts::{altered, padded, part};
use rules::Kind;
use std::io;
use std::io::Print;

// The lengths of a DUID that are just too few and just enough, just enough and just too many.
const LENGTHS: [usize; 4] = [2, 3, 130, 131];

fn router_duids(router: &mut RouterEnd<impl Print>) -> io::Result<()> {
    for n in LENGTHS {
        router.starts(part(&[7u8; 131], n), 7, 58, 1000)?;
    }
    Ok(())
}

// Wanted lengths of 64 and 65, and a time of 2^48.
fn router_numbers(router: &mut RouterEnd<impl Print>) -> io::Result<()> {
    router.starts(&[7u8; 3], 7, 64, 1000)?;
    router.starts(&[7u8; 3], 7, 65, 1000)?;
    router.starts(&[7u8; 2], 7, 58, 0x1_0000_0000_0000)?;
    router.starts(&[7u8; 3], 7, 58, 0x1_0000_0000_0000)
}

fn box_duids(the_box: &mut BoxEnd<impl Print>) -> io::Result<()> {
    for n in LENGTHS {
        the_box.starts(part(&[7u8; 131], n), 1000)?;
    }
    Ok(())
}

fn start<'a, P: Print>(
    router: &mut RouterEnd<'a, P>,
    the_box: &mut BoxEnd<'a, P>,
) -> io::Result<()> {
    the_box.starts(b"\x00\x03\x00\x01\x02\x00\x00\x00\x00\xb0", 1000)?;
    router.starts(b"\x00\x03\x00\x01\x02\x00\x00\x00\x00\xa1", 7, 58, 1000)?;
    router.holds(1000)
}

// In its first minute the router sends nothing, and then not without a server, a prefix or an exchange.
fn wait(router: &mut RouterEnd<impl Print>) -> io::Result<()> {
    let mut room = [0u8; 512];
    router.sends(Kind::Solicit, 1060, &mut room)?;
    router.sends(Kind::Request, 1061, &mut room)?;
    router.sends(Kind::Renew, 1061, &mut room)?;
    router.resends(1061, &mut room)?;
    router.abandons(1061)
}

// Solicit and Advertise, all in one second, in which no second exchange begins.
fn solicit<'a, P: Print>(
    router: &mut RouterEnd<'a, P>,
    the_box: &mut BoxEnd<'a, P>,
) -> io::Result<()> {
    let mut room = [0u8; 512];
    let mut answer = [0u8; 512];
    let n = router.sends(Kind::Solicit, 1061, &mut room)?.len();
    router.sends(Kind::Solicit, 1061, &mut room)?;
    let back = the_box.hears(1061, part(&room, n), "", &mut answer)?;
    the_box.counts(1061)?;
    router.hears(1061, back, "")?;
    router.holds(1061)?;
    router.sends(Kind::Request, 1061, &mut room)?;
    Ok(())
}

// The Reply under another number, to another, too long, as long as can be, and too late.
fn replies(router: &mut RouterEnd<impl Print>, reply: &[u8]) -> io::Result<()> {
    let mut room = [0u8; 512];
    let other = altered(reply, 3, &mut room);
    router.hears(1066, other, " under another number")?;
    let foreign = altered(reply, 17, &mut room);
    router.hears(1066, foreign, " to another's Client ID")?;
    router.hears(1066, &padded::<1233>(reply), "")?;
    router.hears(1066, &padded::<1232>(reply), "")?;
    router.hears(1066, reply, "")
}

// Request, sent twice, and its Reply.
fn request<'a, 'r, P: Print>(
    router: &mut RouterEnd<'a, P>,
    the_box: &mut BoxEnd<'a, P>,
    answer: &'r mut [u8; 512],
) -> io::Result<&'r [u8]> {
    let mut room = [0u8; 512];
    let n = router.sends(Kind::Request, 1062, &mut room)?.len();
    router.sends(Kind::Solicit, 1062, &mut room)?;
    the_box.hears(1063, part(&room, n), "", answer)?;
    let again = router.resends(1064, &mut room)?;
    the_box.hears(1065, again, "", answer)
}

// The end that the router keeps counts from the first sending, the box's from its own second.
fn bind<'a, P: Print>(
    router: &mut RouterEnd<'a, P>,
    the_box: &mut BoxEnd<'a, P>,
) -> io::Result<()> {
    let mut answer = [0u8; 512];
    let reply = request(router, the_box, &mut answer)?;
    the_box.counts(1065)?;
    the_box.shows(1065)?;
    replies(router, reply)?;
    router.holds(1066)?;
    router.sends(Kind::Renew, 1065, &mut answer)?;
    Ok(())
}

// Renew at T1 and Rebind at T2 of what was renewed.
fn extend<'a, P: Print>(
    router: &mut RouterEnd<'a, P>,
    the_box: &mut BoxEnd<'a, P>,
) -> io::Result<()> {
    router.exchanges(the_box, Kind::Renew, 1362, 1363)?;
    the_box.shows(1363)?;
    router.exchanges(the_box, Kind::Rebind, 1842, 1843)?;
    the_box.shows(1843)
}

// Release, twice: the second finds nothing bound, and the first answer closes the exchange.
fn release<'a, P: Print>(
    router: &mut RouterEnd<'a, P>,
    the_box: &mut BoxEnd<'a, P>,
) -> io::Result<()> {
    let mut room = [0u8; 512];
    let mut answer = [0u8; 512];
    let mut late = [0u8; 512];
    let msg = router.sends(Kind::Release, 2000, &mut room)?;
    router.holds(2000)?;
    let back = the_box.hears(2001, msg, "", &mut answer)?;
    the_box.counts(2001)?;
    let again = router.resends(2010, &mut room)?;
    the_box.hears(2011, again, "", &mut late)?;
    router.hears(2012, back, "")?;
    router.abandons(2012)
}

// The wait after the last sending of a Release, and an exchange given up.
fn wait_again(router: &mut RouterEnd<impl Print>) -> io::Result<()> {
    let mut room = [0u8; 512];
    for time in [2061, 2070, 2071] {
        router.sends(Kind::Solicit, time, &mut room)?;
    }
    router.abandons(2071)?;
    router.sends(Kind::Solicit, 2071, &mut room)?;
    Ok(())
}

// A Solicit of 1,233 bytes and one of 1,232.
fn long_solicit<'a, P: Print>(
    router: &mut RouterEnd<'a, P>,
    the_box: &mut BoxEnd<'a, P>,
) -> io::Result<()> {
    let mut room = [0u8; 512];
    let mut answer = [0u8; 512];
    let msg = router.sends(Kind::Solicit, 2072, &mut room)?;
    the_box.hears(2073, &padded::<1233>(msg), "", &mut answer)?;
    let back = the_box.hears(2073, &padded::<1232>(msg), "", &mut answer)?;
    router.hears(2074, back, "")?;
    router.holds(2074)
}

fn main(rt: HostRuntime) -> io::Result<()> {
    let mut the_box = BoxEnd {
        rt: &rt,
        table: [0u8; 39344],
    };
    let mut router = RouterEnd {
        rt: &rt,
        state: [0u8; 384],
    };
    router_duids(&mut router)?;
    router_numbers(&mut router)?;
    box_duids(&mut the_box)?;
    start(&mut router, &mut the_box)?;
    wait(&mut router)?;
    solicit(&mut router, &mut the_box)?;
    bind(&mut router, &mut the_box)?;
    extend(&mut router, &mut the_box)?;
    release(&mut router, &mut the_box)?;
    wait_again(&mut router)?;
    long_solicit(&mut router, &mut the_box)?;
    newcomers(&rt, &mut the_box)
}
