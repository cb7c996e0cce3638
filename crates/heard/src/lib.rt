// What both sides ask of a message that they got.
#![tactic(auto)]

ghost use Rattle.std.specs.Prelude.{◌≡◌, true, ◌+◌, ◌≤◌, ◌<◌, map, ltb, length, is_none, IfSome};
ghost use Rattle.rules.specs.Words.{part, same_bytes};
ghost use Rattle.rules.specs.Message.{ia_at, read, well_formed};
ghost use Rattle.rules.specs.Identity.{kind_of, row_holds};
ghost use Rattle.rules.specs.Box.{wrong_pds};
ghost use Rattle.rules.specs.Options.{spot};
ghost use Rattle.laws.specs.Formed.{PdFormed};
ghost use Rattle.values.specs.Values.{first_listed, ia_of};
ghost use Rattle.notes.specs.Noted.{IsNote, Noted};
ghost use Rattle.heard.specs.Heard.{only_of, bare, bare_ia, AskedPd};
ghost use Rattle.heard.specs.Ids.{id_wanted, id_good, ids_hold};

use notes::{Note, Notes};
use rules::{Kind, Spot, Step};
use values::{IaPrefix, Pd};
use wire::content::{prefix_at, u32_at};
use wire::find::{count_of, find};
use wire::walk::{step_at, u8_at};

// The identity rows, by message type: must one Client ID stand, must one Server ID.
const ROWS: [[bool; 2]; 9] = [
    [false, false],
    [true, false], // Solicit
    [false, false],
    [true, true], // Request
    [false, false],
    [true, true], // Renew
    [true, false], // Rebind
    [false, false],
    [true, true], // Release
];

// The one option of a code in the message's own area, by the note of it.
fn one(msg: &[u8], x: Note, code: usize) -> Option<Spot>
    requires { IsNote code msg.now x }
    ensures { result ≡ only_of code msg.now }
{
    if x.count != 1 {
        return None;
    }
    let first = x.first;
    first
}

// The same where there is no note.
pub fn only(msg: &[u8], code: usize) -> Option<Spot>
    ensures { result ≡ only_of code msg.now }
{
    if count_of(msg, 4, msg.len(), code) != 1 {
        return None;
    }
    find(msg, 4, msg.len(), code, 0)
}

// The first `count` of five IA Prefixes.
#[derive(Clone, Copy)]
struct Prefixes {
    count: usize,
    prefixes: [IaPrefix; 5],
}

// What stands in the places past the last IA Prefix.
fn no_prefix() -> IaPrefix {
    IaPrefix {
        preferred: 0,
        valid: 0,
        length: 0,
        bits: [0u8; 16],
        cut: 0,
        out: [0u8; 16],
    }
}

// The IA Prefixes of an IA_PD, read in one walk: no more than five, for five are too many.
fn prefixes_in(msg: &[u8], start: usize, len: usize) -> Prefixes
    requires { PdFormed msg.now start len }
    ensures { (ltb 4 result.count ≡ ltb 4 (length (ia_at msg.now (Some (spot 0 start len))).listed)) × (result.count ≤ 4 → first_listed result.count result.prefixes ≡ map bare (ia_at msg.now (Some (spot 0 start len))).listed) }
{
    let none = no_prefix();
    let mut prefixes = [none; 5];
    let mut count = 0;
    let mut p = start + 12;
    while count < 5 {
        match step_at(msg, p, start + len) {
            Step::Opt {
                code,
                start: s,
                len: n,
                next,
            } => {
                if code == 26 {
                    prefixes[count] = prefix_at(msg, s, n);
                    count += 1;
                }
                p = next;
            }
            Step::End => {
                return Prefixes { count, prefixes };
            }
            Step::Bad(_) => {
                return Prefixes { count, prefixes };
            }
        }
    }
    Prefixes { count, prefixes }
}

// The IA_PD with that content: its numbers and its prefixes, without Status Codes.
fn pd_at(msg: &[u8], start: usize, len: usize) -> Pd
    requires { PdFormed msg.now start len }
    ensures { (ltb 4 result.count ≡ ltb 4 (length (ia_at msg.now (Some (spot 0 start len))).listed)) × (result.count ≤ 4 → ia_of result ≡ bare_ia (ia_at msg.now (Some (spot 0 start len)))) }
{
    let listed = prefixes_in(msg, start, len);
    let count = listed.count;
    let prefixes = listed.prefixes;
    let iaid = u32_at(msg, start);
    let t1 = u32_at(msg, start + 4);
    let t2 = u32_at(msg, start + 8);
    Pd {
        iaid,
        t1,
        t2,
        count,
        prefixes,
        says: false,
        status: 0,
    }
}

// Whether a message of that type must have one of an identity option: of the Client ID (0), of the Server ID (1).
fn id_wanted(kind: usize, id: usize) -> bool
    requires { id < 2 }
    ensures { result ≡ id_wanted kind id }
{
    if 8 < kind {
        return false;
    }
    ROWS[kind][id]
}

// Whether the bytes of an option are the box's own DUID.
fn is_own(msg: &[u8], own: &[u8], start: usize, len: usize) -> bool
    requires { start + len ≤ length msg.now }
    ensures { result ≡ same_bytes own.now (part start len msg.now) }
{
    if len != own.len() {
        return false;
    }
    cells::same_bytes(own, 0, &msg[start..start + len])
}

// Whether an identity option is good: a Client ID has 3 to 130 bytes, a Server ID is the box's own.
fn id_good(msg: &[u8], own: &[u8], id: usize, start: usize, len: usize) -> bool
    requires { start + len ≤ length msg.now }
    ensures { result ≡ id_good own.now id (part start len msg.now) }
{
    if id == 0 {
        return (3 <= len) & (len <= 130);
    }
    is_own(msg, own, start, len)
}

// Whether as many of an identity option stand as its row wants, and the one that stands is good.
fn ids_hold(msg: &[u8], own: &[u8], kind: usize, id: usize, x: Note) -> bool
    requires { (id < 2) × IsNote (id + 1) msg.now x }
    ensures { result ≡ ids_hold own.now kind id msg.now }
{
    if !id_wanted(kind, id) {
        return x.count == 0;
    }
    match one(msg, x, id + 1) {
        Some(o) => id_good(msg, own, id, o.start, o.len),
        None => false,
    }
}

// Whether the identity row of the message's type holds, for a box whose own DUID that is.
pub fn row_holds(msg: &[u8], own: &[u8], s: Notes) -> bool
    requires { Noted msg.now s }
    ensures { result ≡ row_holds own.now (read msg.now) }
{
    let kind = u8_at(msg, 0);
    ids_hold(msg, own, kind, 0, s.client) & ids_hold(msg, own, kind, 1, s.server)
}

// The kind of a message that the box serves.
pub fn kind_of(msg: &[u8]) -> Kind
    ensures { result ≡ kind_of (read msg.now).kind }
{
    Kind::try_from(u8_at(msg, 0) as u8).unwrap_or(Kind::Release)
}

// The IA_PD that a message asks about; nothing where its IA_PDs are wrong: there isn't exactly one, or it lists more than four
// prefixes.
pub fn asked_pd(msg: &[u8], x: Note) -> Option<Pd>
    requires { (well_formed msg.now ≡ true) × IsNote 25 msg.now x }
    ensures { (is_none result ≡ wrong_pds (read msg.now)) × IfSome result (λ d. AskedPd msg.now d) }
{
    let o = one(msg, x, 25)?;
    let pd = pd_at(msg, o.start, o.len);
    (pd.count <= 4).then_some(pd)
}
