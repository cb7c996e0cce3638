// The message served, over a table without ended records: decide, answer, carry out.
ghost use Rattle.std.specs.Prelude.{◌≡◌, ◌≤◌, length};
ghost use Rattle.rules.specs.Lent.{ended};
ghost use Rattle.notes.specs.Noted.{Noted};
ghost use Rattle.heard.specs.Heard.{AskedPd};
ghost use Rattle.act.specs.Serve.{Ready, served_on};

use crate::answer::answer;
use crate::carry::carry_out;
use notes::Notes;
use values::Pd;

pub fn serve(t: &mut [u8], time: u64, msg: &[u8], s: Notes, q: Pd, out: &mut [u8]) -> usize
    requires { Ready t.old time msg.now × (442 ≤ length out.old) × Noted msg.now s × AskedPd msg.now q }
    ensures { ended result t.new out.new ≡ served_on t.old time msg.now out.old }
{
    let client = notes::client_of(msg, s.client);
    let p = decide::decide(t, time, heard::kind_of(msg), client, s.asks, q);
    let n = answer(out, t, msg, client, p, q);
    carry_out(t, p, client, q.iaid);
    n
}
