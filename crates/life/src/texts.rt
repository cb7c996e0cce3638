// Parts of a room, and messages that differ from those that were written.

// The first n bytes; none if there are fewer.
pub fn part(s: &[u8], n: usize) -> &[u8] {
    s.get(..n).unwrap_or(b"")
}

// The message with the byte at that place changed, in a room.
pub fn altered<'a>(msg: &[u8], at: usize, room: &'a mut [u8; 512]) -> &'a [u8] {
    let n = msg.len();
    if 512 < n || n <= at {
        return b"";
    }
    room[..n].copy_from_slice(msg);
    room[at] = 255;
    &room[..n]
}

// The message with an option of an unknown code after it, that fills it up to N bytes.
pub fn padded<const N: usize>(msg: &[u8]) -> [u8; N] {
    let mut room = [0u8; N];
    let n = msg.len();
    if N < 516 || 512 < n {
        return room;
    }
    cells::copy(&mut room, 0, msg);
    cells::put(&mut room, n, 2, 65000);
    cells::put(&mut room, n + 2, 2, (N - n - 4) as u64);
    room
}

// A Solicit with a Client ID of n sevens and an empty IA_PD, in a room.
pub fn stranger(n: usize, room: &mut [u8; 155]) -> &[u8] {
    if 131 < n {
        return b"";
    }
    *room = [7u8; 155];
    cells::copy(room, 0, b"\x01\x00\x00\x00\x00\x01");
    cells::put(room, 6, 2, n as u64);
    cells::copy(
        room,
        8 + n,
        b"\x00\x19\x00\x0c\x00\x00\x00\x01\x00\x00\x00\x00\x00\x00\x00\x00",
    );
    &room[..n + 24]
}
