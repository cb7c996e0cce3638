// Runs the marked examples of single options, and the boundaries of lengths, with the proved code, and prints what came out.
#![tactic(auto)]

use show::Hex;
use std::io;
use std::io::Print;

const HOME: u128 = 0x2001_0db8_dead_bee0_0000_0000_0000_0000;

const LAST: u128 = 0x2001_0db8_dead_beef_0000_0000_0000_0000;

const ELSEWHERE: u128 = 0x2001_0db8_0007_0000_0000_0000_0000_0000;

const THERE: u128 = 0x2001_0db8_0007_1234_0000_0000_0000_0000;

// LAST, and a bit after its /64.
const ODD: u128 = 0x2001_0db8_dead_beef_8000_0000_0000_0000;

// What a PD Exclude inside p of length a reads as: the excluded prefix, or the number that refuses it.
fn exclude(rt: &impl Print, name: &str, p: u128, a: usize, text: &[u8]) -> io::Result<()> {
    print!(rt; "{name} {} ", Hex(text))?;
    match lone::read_exclude(p.to_be_bytes(), a, text) {
        Ok(e) => println!(rt; "reads as {}/{}", Hex(&e.bits), e.length),
        Err(no) => println!(rt; "is refused: {}", u64::from(no)),
    }
}

// What the PD Exclude for e of length b inside p of length a is written as, into eight bytes of ee: the room, or the number
// that refuses it.
fn write(rt: &impl Print, name: &str, p: u128, a: usize, e: u128, b: usize) -> io::Result<()> {
    let mut room = [0xeeu8; 8];
    match print::lone::write_exclude(&mut room, p.to_be_bytes(), a, e.to_be_bytes(), b) {
        Ok(_) => println!(rt; "{name} writes {}", Hex(&room)),
        Err(no) => {
            let no = u64::from(no);
            println!(rt; "{name} is not written: {no}, room {}", Hex(&room))
        }
    }
}

// How a message reads.
fn message(rt: &impl Print, bytes: &[u8]) -> io::Result<()> {
    print!(rt; "a message of {} bytes is ", bytes.len())?;
    match lone::read_message(bytes) {
        Ok(m) => println!(rt; "read, with Client IDs: {}", m.clients),
        Err(no) => println!(rt; "refused: {}", u64::from(no)),
    }
}

// How a Client ID reads, alone.
fn client(rt: &impl Print, bytes: &[u8]) -> io::Result<()> {
    print!(rt; "a Client ID option of {} bytes ", bytes.len())?;
    match lone::read_id(bytes, 1) {
        Ok(duid) => println!(rt; "stands at {}, length {}", duid.start, duid.len),
        Err(no) => println!(rt; "is refused: {}", u64::from(no)),
    }
}

fn examples(rt: &impl Print) -> io::Result<()> {
    exclude(rt, "E1", HOME, 59, b"\x00\x43\x00\x02\x40\x78")?;
    exclude(rt, "E2", HOME, 59, b"\x00\x43\x00\x02\x41\x7c")?;
    exclude(rt, "E3", HOME, 59, b"\x00\x43\x00\x02\x40\x79")?;
    exclude(rt, "E4", HOME, 59, b"\x00\x43\x00\x02\x3b\x78")?;
    exclude(rt, "E5", HOME, 59, b"\x00\x43\x00\x03\x40\x78\x00")?;
    exclude(rt, "E6", ELSEWHERE, 48, b"\x00\x43\x00\x03\x40\x12\x34")
}

fn writings(rt: &impl Print) -> io::Result<()> {
    write(rt, "E1", HOME, 59, LAST, 64)?;
    write(rt, "E2", HOME, 59, ODD, 65)?;
    write(rt, "E4", HOME, 59, HOME, 59)?;
    write(rt, "E6", ELSEWHERE, 48, THERE, 64)?;
    write(rt, "another's", ELSEWHERE, 48, LAST, 64)?;
    write(rt, "nine bytes", ELSEWHERE, 48, THERE, 81)
}

// Zeros read as type 0 and empty options of code 0, which the reader skips.
fn messages(rt: &impl Print) -> io::Result<()> {
    for n in [3, 4, 1232, 1233] {
        message(rt, &[0u8; 1233][..n])?;
    }
    Ok(())
}

// DUIDs of n sevens.
fn clients(rt: &impl Print) -> io::Result<()> {
    let mut option = [7u8; 135];
    for n in [2u8, 3, 130, 131] {
        option[..4].copy_from_slice(&[0, 1, 0, n]);
        client(rt, &option[..4 + usize::from(n)])?;
    }
    Ok(())
}

fn main(rt: HostRuntime) -> io::Result<()> {
    examples(&rt)?;
    writings(&rt)?;
    messages(&rt)?;
    clients(&rt)
}
