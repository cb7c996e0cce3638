// The box's judgement of a message. Nothing is written here.
#![tactic(auto)]

ghost use Rattle.std.specs.Prelude.{◌≡◌, true, IfOk};
ghost use Rattle.rules.specs.Message.{read, well_formed};
ghost use Rattle.rules.specs.Identity.{kind_of};
ghost use Rattle.rules.specs.TableBytes.{table_of, sound_bytes};
ghost use Rattle.rules.specs.Box.{serving, is_silence};
ghost use Rattle.laws.specs.Refusals.{refused_by};
ghost use Rattle.notes.specs.Noted.{Heard, Noted};
ghost use Rattle.heard.specs.Heard.{AskedPd};
ghost use Rattle.judge.specs.Judged.{by_table, by_form, by_ids, judged};
ghost use Rattle.judge.specs.Understood.{Understood};

use notes::Notes;
use rules::{Kind, Refusal};
use values::Pd;

// 9, 1: by the table, and the time.
pub fn by_table(t: &[u8], time: u64) -> Result<(), Refusal>
    ensures { refused_by result ≡ by_table t.now time }
{
    if !sound::sound(t) {
        return Err(Refusal::Unsound);
    }
    let last = sound::last_of(t);
    if (time < last) | (0x1_0000_0000_0000 <= time) {
        return Err(Refusal::Time);
    }
    Ok(())
}

// 3, 4, 5: by the message's length, type and form. What isn't refused has a kind.
fn by_form(msg: &[u8], s: Notes) -> Result<Kind, Refusal>
    requires { Heard msg.now s }
    ensures { (refused_by result ≡ by_form msg.now) × IfOk result (λ k. k ≡ kind_of (read msg.now).kind) }
{
    if (msg.len() < 4) | (1232 < msg.len()) {
        return Err(Refusal::Size);
    }
    let kind = Kind::try_from(wire::walk::u8_at(msg, 0) as u8)?;
    if !s.formed {
        return Err(Refusal::Malformed);
    }
    Ok(kind)
}

// 6, 7: by its IDs and IA_PDs. What isn't refused asks about one IA_PD.
fn by_ids(t: &[u8], msg: &[u8], s: Notes) -> Result<Pd, Refusal>
    requires { (sound_bytes t.now ≡ true) × (well_formed msg.now ≡ true) × Noted msg.now s }
    ensures { (refused_by result ≡ by_ids t.now msg.now) × IfOk result (λ d. AskedPd msg.now d) }
{
    if !heard::row_holds(msg, sound::own_of(t), s) {
        return Err(Refusal::Identity);
    }
    heard::asked_pd(msg, s.pd).ok_or(Refusal::Delegation)
}

// 8: by what would be said. Only a Rebind is ever passed over.
fn passed_over(t: &[u8], time: u64, msg: &[u8], s: Notes, k: Kind, q: Pd) -> bool
    requires { Understood t.now msg.now × Noted msg.now s × (k ≡ kind_of (read msg.now).kind) × AskedPd msg.now q }
    ensures { result ≡ is_silence (serving (table_of t.now) time (read msg.now)).verdict }
{
    match k {
        Kind::Solicit => false,
        Kind::Request => false,
        Kind::Renew => false,
        Kind::Rebind => decide::silent(t, time, notes::client_of(msg, s.client), q),
        Kind::Release => false,
    }
}

// The IA_PD that a message asks about, or the first refusal that applies.
pub fn judge(t: &[u8], time: u64, msg: &[u8], s: Notes, room: usize) -> Result<Pd, Refusal>
    requires { Heard msg.now s }
    ensures { (refused_by result ≡ judged t.now time msg.now room) × IfOk result (λ d. AskedPd msg.now d) }
{
    by_table(t, time)?;
    if room < 512 {
        return Err(Refusal::Room);
    }
    let kind = by_form(msg, s)?;
    let pd = by_ids(t, msg, s)?;
    if passed_over(t, time, msg, s, kind, pd) {
        return Err(Refusal::Silence);
    }
    Ok(pd)
}
