// Numbers, options and Status Codes.
ghost use Rattle.std.specs.Prelude.{[], ◌∷◌, ◌++◌, ◌+◌, ◌≤◌, ◌<◌, length};
ghost use Rattle.rules.specs.Words.{be, be16};
ghost use Rattle.rules.specs.Options.{option, printed};
ghost use Rattle.rules.specs.Message.{status_item};
ghost use Rattle.laws.specs.Writes.{Wrote};
ghost use Rattle.print.specs.Bytes.{said_bytes};

// The n bytes of v.
pub fn put_number(out: &mut [u8], at: usize, n: usize, v: u64) -> usize
    requires { (at + n ≤ length out.old) × (n ≤ 8) }
    ensures { Wrote at (be n v) result out.old out.new }
{
    cells::put(out, at, n, v);
    at + n
}

pub fn put_u16(out: &mut [u8], at: usize, x: usize) -> usize
    requires { (x < 65536) × (at + 2 ≤ length out.old) }
    ensures { Wrote at (be16 x) result out.old out.new }
{
    put_number(out, at, 2, x as u64)
}

pub fn put_bytes(out: &mut [u8], at: usize, s: &[u8]) -> usize
    requires { at + length s.now ≤ length out.old }
    ensures { Wrote at s.now result out.old out.new }
{
    cells::copy(out, at, s);
    at + s.len()
}

// The code and the length of an option.
pub fn put_head(out: &mut [u8], at: usize, code: usize, len: usize) -> usize
    requires { (code < 65536) × (len < 65536) × (at + 4 ≤ length out.old) }
    ensures { Wrote at (be16 code ++ be16 len) result out.old out.new }
{
    let p = put_u16(out, at, code);
    put_u16(out, p, len)
}

pub fn put_option(out: &mut [u8], at: usize, code: usize, s: &[u8]) -> usize
    requires { (code < 65536) × (length s.now < 65536) × (at + length (option code s.now) ≤ length out.old) }
    ensures { Wrote at (option code s.now) result out.old out.new }
{
    let p = put_head(out, at, code, s.len());
    put_bytes(out, p, s)
}

// A Status Code with that text.
fn put_named(out: &mut [u8], at: usize, k: usize, name: &[u8]) -> usize
    requires { (k < 65536) × (length name.now ≤ 13) × (at + length (option 13 (be16 k ++ name.now)) ≤ length out.old) }
    ensures { Wrote at (option 13 (be16 k ++ name.now)) result out.old out.new }
{
    let p = put_head(out, at, 13, name.len() + 2);
    let q = put_u16(out, p, k);
    put_bytes(out, q, name)
}

// A Status Code with its name.
pub fn put_status(out: &mut [u8], at: usize, k: usize) -> usize
    requires { (k < 65536) × (at + length (printed (status_item k ∷ [])) ≤ length out.old) }
    ensures { Wrote at (printed (status_item k ∷ [])) result out.old out.new }
{
    if k == 0 {
        return put_named(out, at, k, b"Success");
    }
    if k == 3 {
        return put_named(out, at, k, b"NoBinding");
    }
    if k == 6 {
        return put_named(out, at, k, b"NoPrefixAvail");
    }
    put_named(out, at, k, b"")
}

// .. or nothing.
pub fn put_said(out: &mut [u8], at: usize, says: bool, k: usize) -> usize
    requires { (k < 65536) × (at + length (said_bytes says k) ≤ length out.old) }
    ensures { Wrote at (said_bytes says k) result out.old out.new }
{
    if says {
        return put_status(out, at, k);
    }
    at
}
