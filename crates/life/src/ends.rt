// The two ends: each operation with its line.
use crate::speak::{End, Heard, Type};
use crate::texts::part;
use rules::{Kind, Refusal};
use std::io;
use std::io::Print;

// The box, which tells what it does.
#[derive(Drop)]
pub struct BoxEnd<'a, P> {
    pub rt: &'a P,
    pub table: [u8; 39344],
}

impl<'a, P: Print> BoxEnd<'a, P> {
    // Pool 2001:db8:0:aa00::/56, S 56, D 60, preferred 601, valid 900, exclusion on.
    pub fn starts(&mut self, duid: &[u8], time: u64) -> io::Result<()> {
        let came = delegator::opening::start(
            &mut self.table,
            0x2001_0db8_0000_aa00,
            0,
            56,
            56,
            60,
            601,
            900,
            true,
            duid,
            time,
        );
        let end = ended(came, duid);
        println!(self.rt; "{time} box starts, DUID of {} bytes: {end}", duid.len())
    }

    // A message is heard, and the answer returned.
    pub fn hears<'r>(
        &mut self,
        time: u64,
        msg: &[u8],
        how: &str,
        room: &'r mut [u8; 512],
    ) -> io::Result<&'r [u8]> {
        let came = delegator::handling::handle(&mut self.table, time, msg, room);
        let answer = written(room, came);
        let (heard, end) = (Heard { msg, how }, ended(came, answer));
        println!(self.rt; "{time} box hears: {heard}: {end}")?;
        Ok(answer)
    }

    pub fn counts(&self, time: u64) -> io::Result<()> {
        match delegator::showing::live(&self.table, time) {
            Ok(n) => println!(self.rt; "{time} box has live: {n}"),
            Err(no) => println!(self.rt; "{time} box has live: refused {}", u64::from(no)),
        }
    }

    // The first record, up to a DUID's first ten bytes.
    pub fn shows(&self, time: u64) -> io::Result<()> {
        let mut room = [0u8; 153];
        let came = delegator::showing::record_at(&self.table, 0, &mut room);
        let end = End {
            outcome: came,
            text: part(&room, 33),
            none: "none",
        };
        println!(self.rt; "{time} box's first record: {end}")
    }
}

// The router, which tells what it does.
#[derive(Drop)]
pub struct RouterEnd<'a, P> {
    pub rt: &'a P,
    pub state: [u8; 384],
}

impl<'a, P: Print> RouterEnd<'a, P> {
    pub fn starts(&mut self, duid: &[u8], iaid: u32, wanted: u64, time: u64) -> io::Result<()> {
        let came = requester::opening::start(&mut self.state, duid, iaid, wanted, time);
        let (n, end) = (duid.len(), ended(came, duid));
        println!(self.rt; "{time} router starts, DUID of {n} bytes, wanted length {wanted}: {end}")
    }

    // A message is sent, and returned.
    pub fn sends<'r>(
        &mut self,
        kind: Kind,
        time: u64,
        room: &'r mut [u8; 512],
    ) -> io::Result<&'r [u8]> {
        let came = requester::asking::send(&mut self.state, kind, time, room);
        let sent = written(room, came);
        let (name, end) = (Type::from(kind), ended(came, sent));
        println!(self.rt; "{time} router sends a {name}: {end}")?;
        Ok(sent)
    }

    pub fn resends<'r>(&mut self, time: u64, room: &'r mut [u8; 512]) -> io::Result<&'r [u8]> {
        let came = requester::asking::resend(&mut self.state, time, room);
        let sent = written(room, came);
        println!(self.rt; "{time} router sends it again: {}", ended(came, sent))?;
        Ok(sent)
    }

    pub fn abandons(&mut self, time: u64) -> io::Result<()> {
        let came = requester::asking::abandon(&mut self.state, time);
        println!(self.rt; "{time} router abandons it: {}", ended(came, b"-"))
    }

    pub fn hears(&mut self, time: u64, msg: &[u8], how: &str) -> io::Result<()> {
        let came = requester::hearing::receive(&mut self.state, time, msg);
        let (heard, end) = (Heard { msg, how }, ended(came, msg));
        println!(self.rt; "{time} router hears: {heard}: {end}")
    }

    pub fn holds(&self, time: u64) -> io::Result<()> {
        let mut room = [0u8; 42];
        let came = requester::showing::held(&self.state, time, &mut room);
        let end = End {
            outcome: came,
            text: &room,
            none: "nothing",
        };
        println!(self.rt; "{time} router holds: {end}")
    }

    // A whole exchange: sent at one second, answered and heard at another.
    pub fn exchanges(
        &mut self,
        with: &mut BoxEnd<'a, P>,
        kind: Kind,
        sent: u64,
        heard: u64,
    ) -> io::Result<()> {
        let mut room = [0u8; 512];
        let mut answer = [0u8; 512];
        let msg = self.sends(kind, sent, &mut room)?;
        let back = with.hears(heard, msg, "", &mut answer)?;
        self.hears(heard, back, "")?;
        self.holds(heard)
    }
}

// A step that has no text is done.
fn ended(outcome: Result<usize, Refusal>, text: &[u8]) -> End {
    End {
        outcome,
        text,
        none: "done",
    }
}

// What an operation wrote at the front of the room; none if it was refused.
fn written(room: &[u8; 512], outcome: Result<usize, Refusal>) -> &[u8] {
    part(room, outcome.unwrap_or(0))
}
