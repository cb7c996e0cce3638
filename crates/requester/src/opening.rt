// The router is started: a fresh state, for an identity and a wanted length that are good.
ghost use Rattle.std.specs.Prelude.{◌≡◌, []};
ghost use Rattle.rules.specs.Identity.{identity};
ghost use Rattle.rules.specs.Box.{start_tests};
ghost use Rattle.rules.specs.Router.{good_asker};
ghost use Rattle.rules.specs.Lent.{ended, word_of, router_started};
ghost use Rattle.laws.specs.Refusals.{refused_by, number};

use rules::Refusal;

pub fn start(
    t: &mut [u8; 384],
    duid: &[u8],
    iaid: u32,
    wanted: u64,
    time: u64,
) -> Result<usize, Refusal>
    ensures word { ended (word_of result) t.new [] ≡ router_started t.old (identity duid.now iaid) wanted time }
    ensures refusal { refused_by result ≡ number (start_tests (good_asker (identity duid.now iaid) wanted) time) }
{
    if !((3 <= duid.len()) & (duid.len() <= 130) & (wanted <= 64)) {
        return Err(Refusal::Settings);
    }
    if 0x1_0000_0000_0000 <= time {
        return Err(Refusal::Time);
    }
    state::change::start(t, duid, iaid, wanted, time);
    Ok(0)
}
