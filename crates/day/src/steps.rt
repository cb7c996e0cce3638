// What a line asks for, done, and what came of it.
ghost use Rattle.std.specs.Prelude.{◌+◌, ◌≤◌, length};

use crate::words::{bytes, number};
use delegator::handling::handle;
use rules::Refusal;
use show::Hex;
use std::io;
use std::io::Print;

// What came of a message: the refusal's number, or the answer at the front of the room. What is written past it is told too.
fn tell(rt: &impl Print, came: Result<usize, Refusal>, room: &[u8]) -> io::Result<()> {
    match came {
        Ok(n) => print!(rt; "{}", Hex(room.get(..n).unwrap_or(b"")))?,
        Err(no) => print!(rt; "refused {}", u64::from(no))?,
    }
    if room.iter().skip(came.unwrap_or(0)).any(|b| *b != 0xee) {
        print!(rt; " and more")?;
    }
    Ok(())
}

// The box of the day, and who tells what comes of its steps.
#[derive(Drop)]
pub struct Day<'a, P> {
    pub rt: &'a P,
    pub table: [u8; 39344],
}

impl<P: Print> Day<'_, P> {
    fn begin(&mut self, line: &[u8]) -> io::Result<()> {
        let came = delegator::opening::start(
            &mut self.table,
            number(line, 1, 16),
            0,
            number(line, 2, 10),
            number(line, 3, 10),
            number(line, 4, 10),
            (number(line, 5, 10) % 0x1_0000_0000) as u32,
            (number(line, 6, 10) % 0x1_0000_0000) as u32,
            number(line, 7, 10) == 1,
            bytes(line, 8, &mut [0u8; 4096]),
            number(line, 9, 10),
        );
        match came {
            Ok(_) => print!(self.rt; "started"),
            Err(no) => print!(self.rt; "refused {}", u64::from(no)),
        }
    }

    fn count(&self, time: u64) -> io::Result<()> {
        match delegator::showing::live(&self.table, time) {
            Ok(n) => print!(self.rt; "live {n}"),
            Err(no) => print!(self.rt; "refused {}", u64::from(no)),
        }
    }

    fn message(&mut self, line: &[u8]) -> io::Result<()> {
        let time = number(line, 0, 10);
        let mut text = [0u8; 4096];
        let text = bytes(line, 1, &mut text);
        if text.is_empty() {
            return self.count(time);
        }
        let size = if number(line, 2, 10) == 511 { 511 } else { 512 };
        let mut room = [0xeeu8; 512];
        let room = &mut room[..size];
        let came = handle(&mut self.table, time, text, room);
        tell(self.rt, came, room)
    }

    // A message again and again, each time with the turn's number in the two bytes from a place; the last outcome.
    fn repeat(
        &mut self,
        time: u64,
        turns: u64,
        text: &mut [u8],
        at: usize,
        room: &mut [u8],
    ) -> Result<usize, Refusal>
        requires { at + 2 ≤ length text.old }
    {
        let mut last = Ok(0);
        for i in 0..turns {
            cells::put(text, at, 2, i);
            last = handle(&mut self.table, time, text, room);
        }
        last
    }

    // The same, and the last answer told; nothing where the place isn't in the message.
    fn fill(&mut self, line: &[u8]) -> io::Result<()> {
        let mut text = [0u8; 4096];
        let text = bytes(line, 4, &mut text);
        let time = number(line, 1, 10);
        let turns = number(line, 2, 10);
        let at = number(line, 3, 10) as usize;
        if text.len() < 2 || text.len() - 2 < at {
            return Ok(());
        }
        let mut room = [0xeeu8; 512];
        let last = self.repeat(time, turns, text, at, &mut room);
        tell(self.rt, last, &room)
    }

    pub fn run(&mut self, line: &[u8]) -> io::Result<()> {
        match line.first() {
            None => Ok(()),
            Some(b's') => self.begin(line),
            Some(b'f') => self.fill(line),
            Some(_) => self.message(line),
        }
    }
}
