// What the router sends, sends again, and gives up.
ghost use Rattle.std.specs.Prelude.{◌≡◌, [], length};
ghost use Rattle.rules.specs.Lent.{ended, word_of, router_sent, router_resent, router_abandoned};
ghost use Rattle.laws.specs.Refusals.{refused_by};
ghost use Rattle.requester.specs.Judged.{by_sending, by_resending, by_abandoning};

use crate::judging::{by_abandoning, by_resending, by_sending};
use crate::writing::put_open;
use rules::{Kind, Refusal};

// A new exchange of that kind, and its message.
pub fn send(t: &mut [u8], kind: Kind, time: u64, out: &mut [u8]) -> Result<usize, Refusal>
    ensures word { ended (word_of result) t.new out.new ≡ router_sent kind t.old time out.old }
    ensures refusal { refused_by result ≡ by_sending kind t.old time (length out.old) }
{
    by_sending(t, kind, time, out.len())?;
    state::change::begin(t, kind, time);
    Ok(put_open(out, t))
}

// The message of the open exchange again.
pub fn resend(t: &mut [u8], time: u64, out: &mut [u8]) -> Result<usize, Refusal>
    ensures word { ended (word_of result) t.new out.new ≡ router_resent t.old time out.old }
    ensures refusal { refused_by result ≡ by_resending t.old time (length out.old) }
{
    by_resending(t, time, out.len())?;
    state::change::again(t, time);
    Ok(put_open(out, t))
}

// The open exchange closed.
pub fn abandon(t: &mut [u8], time: u64) -> Result<usize, Refusal>
    ensures word { ended (word_of result) t.new [] ≡ router_abandoned t.old time }
    ensures refusal { refused_by result ≡ by_abandoning t.old time }
{
    by_abandoning(t, time)?;
    state::change::close(t, time);
    Ok(0)
}
