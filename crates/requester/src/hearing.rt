// What the router receives.
ghost use Rattle.std.specs.Prelude.{◌≡◌, []};
ghost use Rattle.rules.specs.Lent.{ended, word_of, router_received};
ghost use Rattle.laws.specs.Refusals.{refused_by};
ghost use Rattle.receiving.specs.Received.{judged};

use rules::Refusal;

// The message awaited closes the exchange.
pub fn receive(t: &mut [u8], time: u64, msg: &[u8]) -> Result<usize, Refusal>
    ensures word { ended (word_of result) t.new [] ≡ router_received t.old time msg.now }
    ensures refusal { refused_by result ≡ judged t.old time msg.now }
{
    receiving::receive(t, time, msg)
}
