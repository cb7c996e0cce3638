// The answer to a message from that client, written into the lent room.
ghost use Rattle.std.specs.Prelude.{◌≡◌, ◌≤◌, length};
ghost use Rattle.rules.specs.Words.{splice};
ghost use Rattle.rules.specs.Message.{print};
ghost use Rattle.wire.specs.Client.{client_stretch};
ghost use Rattle.act.specs.Answer.{answered, Answerable};

use crate::head::head_for;
use plan::Plan;
use values::Pd;

pub fn answer(out: &mut [u8], t: &[u8], msg: &[u8], client: &[u8], p: Plan, q: Pd) -> usize
    requires { Answerable t.now msg.now p q × (442 ≤ length out.old) × (client.now ≡ client_stretch msg.now) }
    ensures { (result ≡ length (print (answered t.now msg.now p q))) × (out.new ≡ splice 0 (print (answered t.now msg.now p q)) out.old) }
{
    let d = said::pd_for(sound::setup_of(t), p, q);
    let h = head_for(msg, heard::kind_of(msg), said::has_pd(p));
    print::message::write_message(out, h, client, sound::own_of(t), d)
}
