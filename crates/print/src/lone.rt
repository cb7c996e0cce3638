// The public writers of one option that stands alone, of any values and into any room. Each answers the length of what was
// written; a refusal writes nothing. The clause `word` says what C is told and what stands in the room, and `refusal` which of
// Ok and Err it is: a word alone could be of either.
ghost use Rattle.std.specs.Prelude.{◌≡◌, true, [], ◌∷◌, ◌+◌, leb, ltb, length};
ghost use Rattle.rules.specs.Words.{num};
ghost use Rattle.rules.specs.Prefix.{prefix, encodable, bytes_for};
ghost use Rattle.rules.specs.Options.{option, printed};
ghost use Rattle.rules.specs.Message.{status_item, ia_bytes};
ghost use Rattle.rules.specs.Lone.{listed_encodes, ia_encodes, write_id, write_request, write_status, write_exclude, write_prefix, write_pd};
ghost use Rattle.rules.specs.Lent.{ended, word_of, written};
ghost use Rattle.laws.specs.Refusals.{refused_by};
ghost use Rattle.values.specs.Values.{listed_of, ia_of};
ghost use Rattle.print.specs.Bytes.{prefix_bytes};
ghost use Rattle.print.specs.Lone.{refusal_of};

use crate::able::{encodes, pd_encodes, trimmed};
use crate::message::put_asks;
use crate::pd::{put_exclude, put_pd, put_prefix};
use crate::put::{put_option, put_status};
use crate::size::{exclude_size, pd_size, prefix_size, status_size};
use rules::Refusal;
use values::{IaPrefix, Pd};

// 5 for values that have no encoding, then 2 for too little room.
fn refusal(able: bool, size: usize, room: usize) -> Result<(), Refusal>
    ensures { refused_by result ≡ refusal_of able size room }
{
    if !able {
        return Err(Refusal::Malformed);
    }
    if room < size {
        return Err(Refusal::Room);
    }
    Ok(())
}

// A Client ID or a Server ID.
pub fn write_id(out: &mut [u8], code: u16, duid: &[u8]) -> Result<usize, Refusal>
    ensures word { ended (word_of result) [] out.new ≡ written out.old (write_id code duid.now) }
    ensures refusal { refused_by result ≡ refusal_of (leb (length duid.now) 65535) (4 + length duid.now) (length out.old) }
{
    refusal(duid.len() <= 65535, 4 + duid.len(), out.len())?;
    Ok(put_option(out, 0, code as usize, duid))
}

pub fn write_request(out: &mut [u8]) -> Result<usize, Refusal>
    ensures word { ended (word_of result) [] out.new ≡ written out.old write_request }
    ensures refusal { refused_by result ≡ refusal_of true 6 (length out.old) }
{
    refusal(true, 6, out.len())?;
    Ok(put_asks(out, 0, true))
}

pub fn write_status(out: &mut [u8], k: usize) -> Result<usize, Refusal>
    ensures word { ended (word_of result) [] out.new ≡ written out.old (write_status k) }
    ensures refusal { refused_by result ≡ refusal_of (ltb k 65536) (length (printed (status_item k ∷ []))) (length out.old) }
{
    refusal(k < 65536, status_size(k), out.len())?;
    Ok(put_status(out, 0, k))
}

// The PD Exclude for e of length b inside p of length a.
pub fn write_exclude(
    out: &mut [u8],
    p: [u8; 16],
    a: usize,
    e: [u8; 16],
    b: usize,
) -> Result<usize, Refusal>
    ensures word { ended (word_of result) [] out.new ≡ written out.old (write_exclude (prefix (num p) a) (prefix (num e) b)) }
    ensures refusal { refused_by result ≡ refusal_of (encodable (prefix (num p) a) (prefix (num e) b)) (5 + bytes_for a b) (length out.old) }
{
    refusal(
        prefix::exclude::encodable(p, a, e, b),
        exclude_size(a, b),
        out.len(),
    )?;
    Ok(put_exclude(out, 0, a, e, b))
}

pub fn write_prefix(out: &mut [u8], x: IaPrefix) -> Result<usize, Refusal>
    ensures word { ended (word_of result) [] out.new ≡ written out.old (write_prefix (listed_of x [])) }
    ensures refusal { refused_by result ≡ refusal_of (listed_encodes (listed_of x [])) (length (prefix_bytes x)) (length out.old) }
{
    refusal(encodes(x), prefix_size(x), out.len())?;
    Ok(put_prefix(out, 0, x))
}

pub fn write_pd(out: &mut [u8], d: Pd) -> Result<usize, Refusal>
    ensures word { ended (word_of result) [] out.new ≡ written out.old (write_pd (ia_of d)) }
    ensures refusal { refused_by result ≡ refusal_of (ia_encodes (ia_of d)) (length (option 25 (ia_bytes (ia_of d)))) (length out.old) }
{
    let t = trimmed(d);
    refusal(pd_encodes(t), pd_size(t), out.len())?;
    Ok(put_pd(out, 0, t))
}
