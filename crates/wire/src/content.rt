// The content of an IA Prefix, with the excluded prefix of its PD Exclude.
ghost use Rattle.std.specs.Prelude.{◌≡◌, ◌+◌, ◌≤◌, true, length};
ghost use Rattle.rules.specs.Words.{num, num_at};
ghost use Rattle.rules.specs.Prefix.{prefix};
ghost use Rattle.rules.specs.Options.{area_of, exclude_ok, check_prefix, nth};
ghost use Rattle.rules.specs.Message.{except_at, listed_at};
ghost use Rattle.rules.specs.Options.{spot};
ghost use Rattle.laws.specs.Formed.{PrefixFormed};
ghost use Rattle.values.specs.Values.{except_of, listed_of};

use crate::find::find;
use crate::walk::u8_at;
use rules::Spot;
use values::IaPrefix;

// An excluded prefix and its length, or 0 for none: as IaPrefix holds them, so that an Option would be taken apart again.
#[derive(Clone, Copy)]
pub struct Cut {
    pub cut: usize,
    pub out: [u8; 16],
}

// The number in the four bytes at a place.
pub fn u32_at(msg: &[u8], at: usize) -> u32
    requires { at + 4 ≤ length msg.now }
    ensures { result ≡ num_at msg.now at 4 }
{
    cells::get(msg, at, 4) as u32
}

// The excluded prefix that a PD Exclude's content gives inside p of length a.
pub fn cut_at(msg: &[u8], p: [u8; 16], a: usize, start: usize, len: usize) -> Cut
    requires { (start + len ≤ length msg.now) × (exclude_ok msg.now a start len ≡ true) }
    ensures { except_of result.cut result.out ≡ except_at msg.now (prefix (num p) a) (Some (spot 0 start len)) }
{
    let b = u8_at(msg, start);
    let out = prefix::exclude::unpack(p, a, &msg[start + 1..start + len], b);
    Cut { cut: b, out }
}

// The excluded prefix of an IA Prefix whose options lie between two places.
pub fn cut_in(msg: &[u8], p: [u8; 16], a: usize, at: usize, end: usize) -> Cut
    requires { (end ≤ length msg.now) × (check_prefix msg.now a at end ≡ Ok tt) }
    ensures { except_of result.cut result.out ≡ except_at msg.now (prefix (num p) a) (nth 67 0 (area_of msg.now at end)) }
{
    match find(msg, at, end, 67, 0) {
        Some(o) => cut_at(msg, p, a, o.start, o.len),
        None => Cut {
            cut: 0,
            out: [0u8; 16],
        },
    }
}

// The IA Prefix with that content.
pub fn prefix_at(msg: &[u8], start: usize, len: usize) -> IaPrefix
    requires { PrefixFormed msg.now start len }
    ensures { listed_of result (listed_at msg.now (Some (spot 0 start len))).statuses ≡ listed_at msg.now (Some (spot 0 start len)) }
{
    let preferred = u32_at(msg, start);
    let valid = u32_at(msg, start + 4);
    let length = u8_at(msg, start + 8);
    let bits = cells::bytes_at(msg, start + 9);
    let c = cut_in(msg, bits, length, start + 25, start + len);
    let cut = c.cut;
    let out = c.out;
    IaPrefix {
        preferred,
        valid,
        length,
        bits,
        cut,
        out,
    }
}
