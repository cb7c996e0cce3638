// The box is started: an empty table, with settings that are good.
ghost use Rattle.std.specs.Prelude.{◌≡◌, []};
ghost use Rattle.rules.specs.Settings.{good_settings};
ghost use Rattle.rules.specs.Box.{start_tests};
ghost use Rattle.rules.specs.Lent.{ended, word_of, box_started};
ghost use Rattle.laws.specs.Refusals.{number, refused_by};
ghost use Rattle.delegator.specs.Given.{given};

use prefix::half::Half;
use rules::Refusal;

// Whether the settings are good: the pool by its halves and its length, S and D, the lifetimes, the box's own DUID.
fn good_settings(
    high: u64,
    low: u64,
    width: u64,
    shortest: u64,
    standard: u64,
    preferred: u32,
    valid: u32,
    exclusion: bool,
    own: &[u8],
) -> bool
    ensures { result ≡ good_settings (given high low width shortest standard preferred valid exclusion own.now) }
{
    let pool = Half {
        upper: high,
        length: width,
    };
    (32 <= width)
        & (width <= 56)
        & (low == 0)
        & pool.is_aligned()
        & (width <= shortest)
        & (shortest <= standard)
        & (standard <= 60)
        & (120 <= preferred)
        & (preferred <= valid)
        & (3 <= own.len())
        & (own.len() <= 130)
}

pub fn start(
    t: &mut [u8; 39344],
    high: u64,
    low: u64,
    width: u64,
    shortest: u64,
    standard: u64,
    preferred: u32,
    valid: u32,
    exclusion: bool,
    own: &[u8],
    time: u64,
) -> Result<usize, Refusal>
    ensures word { ended (word_of result) t.new [] ≡ box_started t.old (given high low width shortest standard preferred valid exclusion own.now) time }
    ensures refusal { refused_by result ≡ number (start_tests (good_settings (given high low width shortest standard preferred valid exclusion own.now)) time) }
{
    if !good_settings(
        high, low, width, shortest, standard, preferred, valid, exclusion, own,
    ) {
        return Err(Refusal::Settings);
    }
    if 0x1_0000_0000_0000 <= time {
        return Err(Refusal::Time);
    }
    leases::empty::start(
        t,
        high,
        width,
        shortest,
        standard,
        exclusion,
        preferred as u64,
        valid as u64,
        own,
        time,
    );
    Ok(0)
}
