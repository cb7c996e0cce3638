// What one walk over a message notes for every question that is asked of it.
#![tactic(auto)]

ghost use Rattle.std.specs.Prelude.{◌≡◌, true, false, ◌&&◌, ◌||◌, ◌+◌, ◌≤◌, ◌<◌, ◌^◌, eqb, length, is_ok};
ghost use Rattle.rules.specs.Words.{part};
ghost use Rattle.rules.specs.Refusals.{wrong_size};
ghost use Rattle.rules.specs.Options.{own};
ghost use Rattle.rules.specs.Message.{asks67};
ghost use Rattle.rules.specs.declared.Level.TheVariants.{Top};
ghost use Rattle.wire.specs.Client.{client_stretch};
ghost use Rattle.notes.specs.Noted.{note_on, is_counted, notes, empty, IsNote, Heard};

use rules::{Level, Spot, Step};
use wire::check::{check_one, wrong_size};
use wire::find::content;
use wire::says::asks67;
use wire::walk::step_at;

// The options of one code in the message's own area: how many, and where the first is.
#[derive(Clone, Copy)]
pub struct Note {
    pub count: usize,
    pub first: Option<Spot>,
}

// A message's Client IDs, Server IDs and IA_PDs, whether an Option Request has code 67, and whether the message is well formed:
// where it isn't, the rest says nothing.
#[derive(Clone, Copy)]
pub struct Notes {
    pub formed: bool,
    pub client: Note,
    pub server: Note,
    pub pd: Note,
    pub asks: bool,
}

// A note of no option.
fn nothing() -> Note
    ensures { result ≡ empty }
{
    Note {
        count: 0,
        first: None,
    }
}

// A note of the code w, with one more option.
fn one_more(x: Note, w: usize, code: usize, o: Spot) -> Note
    requires { x.count < 2 ^ 63 }
    ensures { result ≡ note_on w o.place code o.start o.len x }
{
    if code != w {
        return x;
    }
    if x.count == 0 {
        return Note {
            count: 1,
            first: Some(o),
        };
    }
    Note {
        count: x.count + 1,
        first: x.first,
    }
}

// Whether code 67 is asked for, by one more option.
fn asking(msg: &[u8], asks: bool, code: usize, o: Spot) -> bool
    requires { o.start + o.len ≤ length msg.now }
    ensures { result ≡ asks || (eqb code 6 && asks67 (part o.start o.len msg.now)) }
{
    if code != 6 {
        return asks;
    }
    asks | asks67(msg, o.start, o.len)
}

// Whether an option is good where it stands.
fn good(msg: &[u8], code: usize, o: Spot) -> bool
    requires { o.start + o.len ≤ length msg.now }
    ensures { result ≡ is_ok (own Top msg.now 0 o.place code o.start o.len) }
{
    if code == 25 {
        return check_one(msg, Level::Top, 0, code, o).is_ok();
    }
    if code == 6 {
        return o.len % 2 == 0;
    }
    (code != 13) | (2 <= o.len)
}

// Whether options of that code are counted.
fn is_counted(code: usize) -> bool
    ensures { result ≡ is_counted code }
{
    (code == 1) | (code == 2) | (code == 25)
}

// The notes of a message that isn't walked to its end.
fn no_notes() -> Notes
    ensures { result ≡ notes false empty empty empty false }
{
    let none = nothing();
    Notes {
        formed: false,
        client: none,
        server: none,
        pd: none,
        asks: false,
    }
}

// The notes of one that is.
fn whole(client: Note, server: Note, pd: Note, asks: bool) -> Notes
    ensures { result ≡ notes true client server pd asks }
{
    Notes {
        formed: true,
        client,
        server,
        pd,
        asks,
    }
}

// The notes of a message that has the right size. Most options tell nothing, so they are passed over at once. Every option is asked,
// and where the walk stops: so it takes the steps themselves.
fn walked(msg: &[u8]) -> Notes
    requires { wrong_size msg.now ≡ false }
    ensures { Heard msg.now result }
{
    let mut client = nothing();
    let mut server = nothing();
    let mut pd = nothing();
    let mut asks = false;
    let mut p: usize = 4;
    loop {
        match step_at(msg, p, msg.len()) {
            Step::Opt {
                code,
                start,
                len,
                next,
            } => {
                let o = Spot {
                    place: p,
                    start,
                    len,
                };
                if !good(msg, code, o) {
                    return no_notes();
                }
                asks = asking(msg, asks, code, o);
                if is_counted(code) {
                    client = one_more(client, 1, code, o);
                    server = one_more(server, 2, code, o);
                    pd = one_more(pd, 25, code, o);
                }
                p = next;
            }
            Step::End => {
                return whole(client, server, pd, asks);
            }
            Step::Bad(_) => {
                return no_notes();
            }
        }
    }
}

// The notes of a message.
pub fn notes_of(msg: &[u8]) -> Notes
    ensures { Heard msg.now result }
{
    if wrong_size(msg) {
        return no_notes();
    }
    walked(msg)
}

// The one Client ID of a message: empty where there isn't exactly one.
pub fn client_of(msg: &[u8], x: Note) -> &[u8]
    requires { IsNote 1 msg.now x }
    ensures { result.now ≡ client_stretch msg.now }
{
    if x.count != 1 {
        return &msg[..0];
    }
    content(msg, x.first)
}
