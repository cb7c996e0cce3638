// Public readers: a whole message, or one option that stands alone and fills its text. Each is total, and gives what it read or why it
// refuses.
#![tactic(auto)]

ghost use Rattle.std.specs.Prelude.{◌≡◌, IfOk};
ghost use Rattle.rules.specs.Words.{num};
ghost use Rattle.rules.specs.Refusals.{done, outcome, unless};
ghost use Rattle.rules.specs.Prefix.{prefix};
ghost use Rattle.rules.specs.Message.{listed_at};
ghost use Rattle.rules.specs.Lone.{alone, reader_tests, only, read_id, read_request, read_status, read_exclude, read_prefix, read_pd, read_message};
ghost use Rattle.lone.specs.Answers.{id_value, Fills, exclude_value, prefix_value, pd_head, projected, message_value};

use rules::{Level, Refusal, Spot};
use values::IaPrefix;
use wire::check::{check_one, wrong_size};
use wire::content::{cut_at, prefix_at, u32_at};
use wire::find::{count_of, find};
use wire::says::asks67;
use wire::walk::{u8_at, u16_at};

// ---------------------------------------------------------------- what is answered

// The DUID of a Client ID or Server ID, as that stretch of the text.
#[derive(Clone, Copy)]
pub struct Stretch {
    pub start: usize,
    pub len: usize,
}

// The excluded prefix of a PD Exclude.
#[derive(Clone, Copy)]
pub struct Excluded {
    pub length: usize,
    pub bits: [u8; 16],
}

// An IA_PD: its numbers, how many IA Prefixes it has, and where the first is.
#[derive(Clone, Copy)]
pub struct PdRead {
    pub iaid: u32,
    pub t1: u32,
    pub t2: u32,
    pub prefixes: usize,
    pub first: Option<Spot>,
}

// A message: its type and number, how many Client IDs, Server IDs and IA_PDs it has, and where the first of each is.
#[derive(Clone, Copy)]
pub struct MessageRead {
    pub kind: usize,
    pub number: u32,
    pub clients: usize,
    pub client: Option<Spot>,
    pub servers: usize,
    pub server: Option<Spot>,
    pub pds: usize,
    pub pd: Option<Spot>,
}

// ---------------------------------------------------------------- what is refused

// Whether the text is the option of code w, well formed at that level, and nothing else.
fn is_alone(text: &[u8], l: Level, w: usize) -> bool
    ensures { result ≡ alone l w text.now }
{
    let len = u16_at(text, 2);
    let o = Spot {
        place: 0,
        start: 4,
        len,
    };
    (u16_at(text, 0) == w) && (4 + len == text.len()) && check_one(text, l, 0, w, o).is_ok()
}

// 3, 5: why a text that is to be that option alone is refused.
fn alone(text: &[u8], l: Level, w: usize) -> Result<(), Refusal>
    ensures { outcome result ≡ unless (reader_tests text.now (alone l w text.now)) (done tt) }
{
    if wrong_size(text) {
        Err(Refusal::Size)
    } else if is_alone(text, l, w) {
        Ok(())
    } else {
        Err(Refusal::Malformed)
    }
}

// ---------------------------------------------------------------- lone options

pub fn read_id(text: &[u8], code: usize) -> Result<Stretch, Refusal>
    ensures value { id_value text.now result ≡ read_id code text.now }
    ensures fills { IfOk result (Fills text.now) }
{
    alone(text, Level::Top, code)?;
    Ok(Stretch {
        start: 4,
        len: text.len() - 4,
    })
}

// Whether code 67 is in an Option Request.
pub fn read_request(text: &[u8]) -> Result<bool, Refusal>
    ensures { outcome result ≡ read_request text.now }
{
    alone(text, Level::Top, 6)?;
    Ok(asks67(text, 4, text.len() - 4))
}

// The code of a Status Code.
pub fn read_status(text: &[u8]) -> Result<usize, Refusal>
    ensures { outcome result ≡ read_status text.now }
{
    alone(text, Level::Top, 13)?;
    Ok(u16_at(text, 4))
}

// A PD Exclude inside the prefix p of length a.
pub fn read_exclude(p: [u8; 16], a: usize, text: &[u8]) -> Result<Excluded, Refusal>
    ensures { exclude_value result ≡ read_exclude (prefix (num p) a) text.now }
{
    alone(text, Level::InPrefix(a), 67)?;
    let c = cut_at(text, p, a, 4, text.len() - 4);
    let length = c.cut;
    let bits = c.out;
    Ok(Excluded { length, bits })
}

pub fn read_prefix(text: &[u8]) -> Result<IaPrefix, Refusal>
    ensures { prefix_value (listed_at text.now (only text.now)).statuses result ≡ read_prefix text.now }
{
    alone(text, Level::InPd, 26)?;
    Ok(prefix_at(text, 4, text.len() - 4))
}

pub fn read_pd(text: &[u8]) -> Result<PdRead, Refusal>
    ensures { outcome result ≡ projected (pd_head text.now) (read_pd text.now) }
{
    alone(text, Level::Top, 25)?;
    Ok(PdRead {
        iaid: u32_at(text, 4),
        t1: u32_at(text, 8),
        t2: u32_at(text, 12),
        prefixes: count_of(text, 16, text.len(), 26),
        first: find(text, 16, text.len(), 26, 0),
    })
}

// ---------------------------------------------------------------- a message

pub fn read_message(text: &[u8]) -> Result<MessageRead, Refusal>
    ensures { message_value result ≡ read_message text.now }
{
    if wrong_size(text) {
        return Err(Refusal::Size);
    }
    let s = notes::notes_of(text);
    if !s.formed {
        return Err(Refusal::Malformed);
    }
    Ok(MessageRead {
        kind: u8_at(text, 0),
        number: cells::get(text, 1, 3) as u32,
        clients: s.client.count,
        client: s.client.first,
        servers: s.server.count,
        server: s.server.first,
        pds: s.pd.count,
        pd: s.pd.first,
    })
}
