// An IA_PD with its IA Prefixes and their PD Excludes.
ghost use Rattle.std.specs.Prelude.{◌≡◌, true, ◌+◌, ◌≤◌, ◌<◌, length};
ghost use Rattle.rules.specs.Words.{all, num};
ghost use Rattle.rules.specs.Prefix.{prefix, zero_after, exclude_bytes};
ghost use Rattle.rules.specs.Options.{option};
ghost use Rattle.rules.specs.Message.{ia_bytes};
ghost use Rattle.laws.specs.Writes.{Wrote};
ghost use Rattle.values.specs.Values.{lease_encodes, ia_of, Able};
ghost use Rattle.print.specs.Bytes.{fixed_bytes, cut_bytes, prefix_bytes, prefixes_bytes, three_bytes, pd_bytes};

use crate::put::{put_bytes, put_head, put_number, put_said};
use values::{IaPrefix, Pd};

// The PD Exclude for e of length b inside a prefix of length a.
pub fn put_exclude(out: &mut [u8], at: usize, a: usize, e: [u8; 16], b: usize) -> usize
    requires { (a ≤ b) × (b ≤ 128) × (zero_after (prefix (num e) b) ≡ true) × (at + length (option 67 (exclude_bytes a (prefix (num e) b))) ≤ length out.old) }
    ensures { Wrote at (option 67 (exclude_bytes a (prefix (num e) b))) result out.old out.new }
{
    let n = 1 + (b - a + 7) / 8;
    let p = put_head(out, at, 67, n);
    prefix::exclude::put_exclude(out, p, e, a, b);
    p + n
}

// The PD Exclude of an IA Prefix, or nothing.
fn put_cut(out: &mut [u8], at: usize, x: IaPrefix) -> usize
    requires { (lease_encodes x ≡ true) × (at + length (cut_bytes x) ≤ length out.old) }
    ensures { Wrote at (cut_bytes x) result out.old out.new }
{
    if x.cut == 0 {
        return at;
    }
    let e = x.out;
    put_exclude(out, at, x.length, e, x.cut)
}

// An IA Prefix's content up to its options.
fn put_fixed(
    out: &mut [u8],
    at: usize,
    preferred: u32,
    valid: u32,
    a: usize,
    bits: [u8; 16],
) -> usize
    requires { (a < 256) × (at + 25 ≤ length out.old) }
    ensures { Wrote at (fixed_bytes preferred valid a bits) result out.old out.new }
{
    let p = put_number(out, at, 4, preferred as u64);
    let q = put_number(out, p, 4, valid as u64);
    let r = put_number(out, q, 1, a as u64);
    put_bytes(out, r, &bits)
}

pub fn put_prefix(out: &mut [u8], at: usize, x: IaPrefix) -> usize
    requires { (lease_encodes x ≡ true) × (at + length (prefix_bytes x) ≤ length out.old) }
    ensures { Wrote at (prefix_bytes x) result out.old out.new }
{
    let bits = x.bits;
    let p = put_fixed(out, at + 4, x.preferred, x.valid, x.length, bits);
    let end = put_cut(out, p, x);
    put_head(out, at, 26, end - (at + 4));
    end
}

pub fn put_prefixes(out: &mut [u8], at: usize, ps: &[IaPrefix]) -> usize
    requires { (all lease_encodes ps.now ≡ true) × (at + length (prefixes_bytes ps.now) ≤ length out.old) }
    ensures { Wrote at (prefixes_bytes ps.now) result out.old out.new }
{
    let mut end = at;
    for x in ps {
        end = put_prefix(out, end, *x);
    }
    end
}

// IAID, T1 and T2.
fn put_three(out: &mut [u8], at: usize, iaid: u32, t1: u32, t2: u32) -> usize
    requires { at + 12 ≤ length out.old }
    ensures { Wrote at (three_bytes iaid t1 t2) result out.old out.new }
{
    let p = put_number(out, at, 4, iaid as u64);
    let q = put_number(out, p, 4, t1 as u64);
    put_number(out, q, 4, t2 as u64)
}

pub fn put_pd(out: &mut [u8], at: usize, d: Pd) -> usize
    requires { Able d × (at + length (option 25 (ia_bytes (ia_of d))) ≤ length out.old) }
    ensures { Wrote at (option 25 (ia_bytes (ia_of d))) result out.old out.new }
{
    let ps = d.prefixes;
    let p = put_three(out, at + 4, d.iaid, d.t1, d.t2);
    let q = put_prefixes(out, p, &ps[..d.count]);
    let end = put_said(out, q, d.says, d.status);
    put_head(out, at, 25, end - (at + 4));
    end
}

// .. or nothing.
pub fn put_pds(out: &mut [u8], at: usize, has: bool, d: Pd) -> usize
    requires { Able d × (at + length (pd_bytes has d) ≤ length out.old) }
    ensures { Wrote at (pd_bytes has d) result out.old out.new }
{
    if has {
        return put_pd(out, at, d);
    }
    at
}
