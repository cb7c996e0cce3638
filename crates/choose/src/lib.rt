// Choosing a prefix for a new binding.
#![tactic(auto)]

pub mod chooser; // chooser.rt: the records and settings that a choice goes by
pub mod hint; // hint.rt: the length that a hint wants, and whether its prefix can be had
pub mod walk; // walk.rt: the lowest free place of one length, and of the shortest length that has one

ghost use Rattle.std.specs.Prelude.{◌≡◌, option_map};
ghost use Rattle.rules.specs.Words.{from};
ghost use Rattle.rules.specs.TableBytes.{record_at};
ghost use Rattle.rules.specs.Choose.{choose};
ghost use Rattle.prefix.specs.Upper.{half_of};
ghost use Rattle.choose.specs.Choice.{settings_by, hint_of};

use chooser::Chooser;
use hint::Hint;
use prefix::half::Half;

// The choice among the records, with this hint or none.
pub fn choose(c: Chooser, hint: Option<Hint>) -> Option<Half>
    ensures { option_map half_of result ≡ choose (settings_by c.entry) (from (record_at c.entry.t.now) 0 c.entry.n) (option_map hint_of hint) }
{
    if 256 <= c.n {
        return None;
    }
    let Some(h) = hint else {
        return c.shortest_from(c.standard);
    };
    if c.is_place(h) {
        return Some(Half {
            upper: h.high,
            length: h.length,
        });
    }
    c.shortest_from(c.wanted(h.length))
}
