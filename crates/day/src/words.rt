// The words of a line, parted by single spaces and counted from 0; one that isn't there is empty.
ghost use Rattle.std.specs.Prelude.{◌≤◌, ◌<◌, length, IfSome};

// What a digit is worth. A capital letter is none, which `to_digit` would take.
fn digit(c: u8) -> Option<u8>
    ensures { IfSome result (λ d. d < 16) }
{
    match c {
        b'0'..=b'9' => Some(c - b'0'),
        b'a'..=b'f' => Some(c - b'a' + 10),
        _ => None,
    }
}

fn word(line: &[u8], k: usize) -> &[u8] {
    line.split(|b| *b == b' ').nth(k).unwrap_or(b"")
}

// A word as a number, at base 10 or 16, as far as its digits go. What is too long loses its highest bits.
pub fn number(line: &[u8], k: usize, base: u64) -> u64
    requires { base ≤ 16 }
{
    let mut n = 0;
    for c in word(line, k) {
        match digit(*c).map(u64::from) {
            Some(d) if d < base => n = n % 0x1000_0000_0000_0000 * base + d,
            _ => break,
        }
    }
    n
}

// A word as bytes, two digits for each, as far as they and a room go: the front of the room.
pub fn bytes<'a>(line: &[u8], k: usize, room: &'a mut [u8]) -> &'a mut [u8]
    ensures { length result.now ≤ length room.old }
{
    let mut n = 0;
    for pair in word(line, k).chunks_exact(2) {
        match (digit(pair[0]), digit(pair[1])) {
            (Some(high), Some(low)) if n < room.len() => room[n] = high * 16 + low,
            _ => break,
        }
        n += 1;
    }
    &mut room[..n]
}
