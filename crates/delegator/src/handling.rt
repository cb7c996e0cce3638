// A message handled: judge, then act.
ghost use Rattle.std.specs.Prelude.{◌≡◌, length};
ghost use Rattle.rules.specs.Lent.{ended, word_of, box_handled};
ghost use Rattle.laws.specs.Refusals.{refused_by};
ghost use Rattle.judge.specs.Judged.{judged};

use rules::Refusal;

pub fn handle(t: &mut [u8], time: u64, msg: &[u8], out: &mut [u8]) -> Result<usize, Refusal>
    ensures word { ended (word_of result) t.new out.new ≡ box_handled t.old time msg.now out.old }
    ensures refusal { refused_by result ≡ judged t.old time msg.now (length out.old) }
{
    let s = notes::notes_of(msg);
    let pd = judge::judge(t, time, msg, s, out.len())?;
    leases::ended::tidy(t, time);
    Ok(act::serve::serve(t, time, msg, s, pd, out))
}
