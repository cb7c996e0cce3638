// What is asked of the table; it stays as it is.
ghost use Rattle.std.specs.Prelude.{◌≡◌, not, [], ◌∷◌, ltb, length};
ghost use Rattle.rules.specs.TableBytes.{record_size, sound_bytes};
ghost use Rattle.rules.specs.Lent.{ended, word_of, box_counted, box_shown};
ghost use Rattle.laws.specs.Refusals.{number, refused_by};
ghost use Rattle.judge.specs.Judged.{by_table};

use rules::Refusal;

// How many records are live.
pub fn live(t: &[u8], time: u64) -> Result<usize, Refusal>
    ensures word { word_of result ≡ box_counted t.now time }
    ensures refusal { refused_by result ≡ by_table t.now time }
{
    judge::by_table(t, time)?;
    Ok(search::count_live(t, sound::count_of(t), time))
}

// The record at a place, ended or not; none there: nothing.
pub fn record_at(t: &[u8], index: usize, out: &mut [u8]) -> Result<usize, Refusal>
    ensures word { ended (word_of result) t.now out.new ≡ box_shown t.now index out.old }
    ensures refusal { refused_by result ≡ number ((9, not (sound_bytes t.now)) ∷ (2, ltb (length out.old) record_size) ∷ []) }
{
    if !sound::sound(t) {
        return Err(Refusal::Unsound);
    }
    if out.len() < 153 {
        return Err(Refusal::Room);
    }
    if sound::count_of(t) <= index {
        return Ok(0);
    }
    let o = 176 + index * 153;
    cells::copy(out, 0, &t[o..o + 153]);
    Ok(153)
}
