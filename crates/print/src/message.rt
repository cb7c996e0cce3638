// Whole messages: the box's answers and the router's queries.
ghost use Rattle.std.specs.Prelude.{◌≡◌, ◌∷◌, [], ◌++◌, ◌+◌, ◌≤◌, ◌<◌, length};
ghost use Rattle.rules.specs.Words.{splice, be};
ghost use Rattle.rules.specs.Options.{printed};
ghost use Rattle.rules.specs.Message.{asks_items, print};
ghost use Rattle.laws.specs.Writes.{Wrote};
ghost use Rattle.values.specs.Values.{Able};
ghost use Rattle.print.specs.Bytes.{server_bytes, ids_bytes};
ghost use Rattle.print.specs.Whole.{message_of};

use crate::pd::put_pds;
use crate::put::{put_head, put_number, put_option, put_said, put_u16};
use values::Pd;

// What a message says beside its DUIDs and its IA_PD: the type, the number, whether it has a Server ID, whether it asks
// for PD Exclude, whether it says a status, and which, and whether it has an IA_PD.
#[derive(Clone, Copy)]
pub struct Head {
    pub kind: u8,
    pub number: u32,
    pub server: bool,
    pub asks: bool,
    pub says: bool,
    pub status: usize,
    pub pd: bool,
}

// The type and the number.
fn put_start(out: &mut [u8], kind: u8, number: u32) -> usize
    requires { 4 ≤ length out.old }
    ensures { Wrote 0 ((kind ∷ []) ++ be 3 number) result out.old out.new }
{
    let p = put_number(out, 0, 1, kind as u64);
    put_number(out, p, 3, number as u64)
}

// A Server ID, or nothing.
fn put_server(out: &mut [u8], at: usize, has: bool, server: &[u8]) -> usize
    requires { (length server.now < 65536) × (at + length (server_bytes has server.now) ≤ length out.old) }
    ensures { Wrote at (server_bytes has server.now) result out.old out.new }
{
    if has {
        return put_option(out, at, 2, server);
    }
    at
}

// A message up to its Option Request.
fn put_ids(out: &mut [u8], kind: u8, number: u32, client: &[u8], has: bool, server: &[u8]) -> usize
    requires { (length client.now < 65536) × (length server.now < 65536) × (length (ids_bytes kind number client.now has server.now) ≤ length out.old) }
    ensures { Wrote 0 (ids_bytes kind number client.now has server.now) result out.old out.new }
{
    let p = put_start(out, kind, number);
    let q = put_option(out, p, 1, client);
    put_server(out, q, has, server)
}

// An Option Request with PD Exclude, or nothing.
pub fn put_asks(out: &mut [u8], at: usize, asks: bool) -> usize
    requires { at + length (printed (asks_items asks)) ≤ length out.old }
    ensures { Wrote at (printed (asks_items asks)) result out.old out.new }
{
    if asks {
        let p = put_head(out, at, 6, 2);
        return put_u16(out, p, 67);
    }
    at
}

pub fn write_message(out: &mut [u8], h: Head, client: &[u8], server: &[u8], d: Pd) -> usize
    requires { (length client.now < 65536) × (length server.now < 65536) × (h.status < 65536) × Able d × (length (print (message_of h client.now server.now d)) ≤ length out.old) }
    ensures { (result ≡ length (print (message_of h client.now server.now d))) × (out.new ≡ splice 0 (print (message_of h client.now server.now d)) out.old) }
{
    let p = put_ids(out, h.kind, h.number, client, h.server, server);
    let q = put_asks(out, p, h.asks);
    let r = put_said(out, q, h.says, h.status);
    put_pds(out, r, h.pd, d)
}
