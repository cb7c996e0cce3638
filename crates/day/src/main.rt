// Runs a day of small boxes with the proved code: reads a step from each line of its input, and prints what came of it.
//
//     start POOL P S D PREFERRED VALID EXCLUSION DUID TIME    a new box; the pool's upper half and the DUID in hexadecimal
//     TIME                                                    how many records are live then
//     TIME MESSAGE                                            a message, in hexadecimal
//     TIME MESSAGE 511                                        the same, in a room of 511 bytes instead of 512
//     fill TIME COUNT PLACE MESSAGE                           the message COUNT times, with the turn's number at PLACE
#![tactic(auto)]

mod steps; // steps.rt: what a line asks for, done
mod words; // words.rt: the words of a line, as numbers and bytes

ghost use Rattle.std.specs.Prelude.{◌≤◌, IfOk, length};

use crate::steps::Day;
use std::io;
use std::io::{Input, Print, Read};

fn day(rt: &impl Print, text: &[u8]) -> io::Result<()> {
    let mut day = Day {
        rt,
        table: [0u8; 39344],
    };
    for (step, line) in (1usize..).zip(text.split_inclusive(|b| *b == b'\n')) {
        print!(rt; "{step} ")?;
        day.run(line.strip_suffix(b"\n").unwrap_or(line))?;
        println!(rt)?;
    }
    Ok(())
}

// Reads until the room is full or the input ends: the front of the room, as far as it was filled. The loop stays a
// `while`, in which each read is given all the room that is left: `io::copy` has a room of its own, and of a packet that is longer
// than that the rest would be lost.
fn read_full<'a>(input: &mut impl Read, room: &'a mut [u8]) -> io::Result<&'a [u8]>
    ensures { IfOk result (λ text. length text.now ≤ length room.old) }
{
    let mut n = 0;
    while n < room.len() {
        let more = input.read(&mut room[n..])?;
        if more == 0 {
            break;
        }
        n += more;
    }
    Ok(&room[..n])
}

fn main(rt: HostRuntime) -> io::Result<()> {
    let mut room = [0u8; 65536];
    let text = read_full(&mut rt.reader(), &mut room)?;
    day(&rt, text)
}
