// What is malformed: one walk for every level, which calls itself for the areas inside.
ghost use Rattle.std.specs.Prelude.{◌≡◌, ◌+◌, ◌≤◌, length};
ghost use Rattle.rules.specs.Refusals.{wrong_size};
ghost use Rattle.rules.specs.Options.{wants, in_any, exclude_ok, in_prefix, in_pd, in_top, own, check};
ghost use Rattle.rules.specs.Message.{well_formed};
ghost use Rattle.wire.specs.Judged.{is_judged};

use crate::walk::{step_at, u8_at};
use rules::{Checked, Level, Spot, Step};

// The option at a place is good, or broken there.
fn good_if(ok: bool, place: usize) -> Checked
    ensures { result ≡ wants ok place }
{
    if ok {
        return Ok(());
    }
    Err(place)
}

// An option at any level: a Status Code has 2 bytes or more.
fn in_any(code: usize, o: Spot) -> Checked
    ensures { result ≡ in_any o.place code o.len }
{
    if code == 13 {
        return good_if(2 <= o.len, o.place);
    }
    Ok(())
}

// Whether the content of a PD Exclude, inside a prefix of length a, is an excluded prefix's.
fn exclude_ok(msg: &[u8], a: usize, o: Spot) -> bool
    requires { o.start + o.len ≤ length msg.now }
    ensures { result ≡ exclude_ok msg.now a o.start o.len }
{
    if o.len == 0 {
        return false;
    }
    let b = u8_at(msg, o.start);
    prefix::exclude::content_ok(&msg[o.start + 1..o.start + o.len], a, b)
}

// One option inside an IA Prefix of length a, after `seen` PD Excludes.
fn in_prefix(msg: &[u8], a: usize, seen: usize, code: usize, o: Spot) -> Checked
    requires { o.start + o.len ≤ length msg.now }
    ensures { result ≡ in_prefix msg.now a seen o.place code o.start o.len }
{
    if code == 67 {
        let ok = exclude_ok(msg, a, o);
        return good_if((seen == 0) & ok, o.place);
    }
    in_any(code, o)
}

// One option inside an IA_PD.
#[cycle(levels)]
fn in_pd(msg: &[u8], code: usize, o: Spot) -> Checked
    requires { o.start + o.len ≤ length msg.now }
    ensures { result ≡ in_pd msg.now 0 o.place code o.start o.len }
{
    if code == 26 {
        if o.len < 25 {
            return Err(o.place);
        }
        let a = u8_at(msg, o.start + 8);
        if 128 < a {
            return Err(o.place);
        }
        return check_area(msg, Level::InPrefix(a), o.start + 25, o.start + o.len);
    }
    in_any(code, o)
}

// One option of the message's own area.
#[cycle(levels)]
fn in_top(msg: &[u8], code: usize, o: Spot) -> Checked
    requires { o.start + o.len ≤ length msg.now }
    ensures { result ≡ in_top msg.now 0 o.place code o.start o.len }
{
    if code == 25 {
        if o.len < 12 {
            return Err(o.place);
        }
        return check_area(msg, Level::InPd, o.start + 12, o.start + o.len);
    }
    if code == 6 {
        return good_if(o.len % 2 == 0, o.place);
    }
    in_any(code, o)
}

// One option at a level.
#[cycle(levels)]
pub fn check_one(msg: &[u8], l: Level, seen: usize, code: usize, o: Spot) -> Checked
    requires { o.start + o.len ≤ length msg.now }
    ensures { result ≡ own l msg.now seen o.place code o.start o.len }
{
    match l {
        Level::Top => in_top(msg, code, o),
        Level::InPd => in_pd(msg, code, o),
        Level::InPrefix(a) => in_prefix(msg, a, seen, code, o),
    }
}

// Whether options of that code are judged at any level: all others are good.
fn is_judged(code: usize) -> bool
    ensures { result ≡ is_judged code }
{
    (code == 6) | (code == 13) | (code == 25) | (code == 26) | (code == 67)
}

// The first bad place of an area at a level. It asks of every option, and where the walk stops: so it takes the steps themselves.
#[cycle(levels)]
pub fn check_area(msg: &[u8], l: Level, at: usize, end: usize) -> Checked
    requires { end ≤ length msg.now }
    ensures { result ≡ check l msg.now at end }
{
    let mut p = at;
    let mut seen = 0;
    loop {
        match step_at(msg, p, end) {
            Step::Opt {
                code,
                start,
                len,
                next,
            } => {
                if is_judged(code) {
                    let o = Spot {
                        place: p,
                        start,
                        len,
                    };
                    check_one(msg, l, seen, code, o)?;
                    if code == 67 {
                        seen += 1;
                    }
                }
                p = next;
            }
            Step::End => {
                return Ok(());
            }
            Step::Bad(q) => {
                return Err(q);
            }
        }
    }
}

// Whether a text is too short or too long to be read.
pub fn wrong_size(msg: &[u8]) -> bool
    ensures { result ≡ wrong_size msg.now }
{
    (msg.len() < 4) | (1232 < msg.len())
}

// Whether no option of the message is malformed.
pub fn well_formed(msg: &[u8]) -> bool
    ensures { result ≡ well_formed msg.now }
{
    check_area(msg, Level::Top, 4, msg.len()).is_ok()
}
