// The rules: definitions alone, in specs/. What stands here are the types that the definitions share with the code, and the numbers
// of the refusals.
#![tactic(auto)]

ghost use Rattle.rules.specs.Identity.{kind_from, type_of};
ghost use Rattle.rules.specs.Refusals.{number_of};
ghost use Rattle.std.specs.Prelude.{◌≡◌};

// Why an operation refuses: the conditions of document 01, in the order of their numbers.
#[derive(Clone, Copy, Debug, PartialEq, Eq)]
pub enum Refusal {
    Time, // 1: before the last accepted one, or 2^48 or more
    Room, // 2: the lent room is too short
    Size, // 3: the text is under 4 or over 1,232 bytes
    Unserved, // 4: the box serves no message of its type
    Malformed, // 5: an option, or values that have no encoding
    Identity, // 6: its row is broken
    Delegation, // 7: not exactly one IA_PD, or more than four IA Prefixes in it
    Silence, // 8: a Rebind must be passed over
    Unsound, // 9: the lent table or state
    Settings, // 10: at a start
    Busy, // 11: an exchange is open
    Early, // 12: too soon for a new exchange
    State, // 13: it doesn't allow this step
    Unawaited, // 14: the message isn't the one awaited
}

impl From<Refusal> for u64 {
    ghost from_gives = { λ r n. n ≡ number_of r };

    fn from(r: Refusal) -> u64 {
        match r {
            Refusal::Time => 1,
            Refusal::Room => 2,
            Refusal::Size => 3,
            Refusal::Unserved => 4,
            Refusal::Malformed => 5,
            Refusal::Identity => 6,
            Refusal::Delegation => 7,
            Refusal::Silence => 8,
            Refusal::Unsound => 9,
            Refusal::Settings => 10,
            Refusal::Busy => 11,
            Refusal::Early => 12,
            Refusal::State => 13,
            Refusal::Unawaited => 14,
        }
    }
}

// Where an option area lies: the message's own, inside an IA_PD, or inside an IA Prefix of that length.
#[derive(Clone, Copy)]
pub enum Level {
    Top,
    InPd,
    InPrefix(usize),
}

// What stands at a place of an option area: an option, nothing more, or bytes that are no option, with their place.
#[derive(Clone, Copy)]
pub enum Step {
    Opt {
        code: usize,
        start: usize,
        len: usize,
        next: usize,
    },
    End,
    Bad(usize),
}

// Whether an option area is well formed, or else the place of the first bad option or leftover byte.
pub type Checked = Result<(), usize>;

// Where an option stands: its place, and the start and length of its content.
#[derive(Clone, Copy)]
pub struct Spot {
    pub place: usize,
    pub start: usize,
    pub len: usize,
}

// The kinds of message that the box serves.
#[derive(Clone, Copy, Debug, PartialEq, Eq)]
pub enum Kind {
    Solicit,
    Request,
    Renew,
    Rebind,
    Release,
}

impl From<Kind> for u8 {
    ghost from_gives = { λ k n. n ≡ type_of k };

    fn from(k: Kind) -> u8 {
        match k {
            Kind::Solicit => 1,
            Kind::Request => 3,
            Kind::Renew => 5,
            Kind::Rebind => 6,
            Kind::Release => 8,
        }
    }
}

impl TryFrom<u8> for Kind {
    type Error = Refusal;

    ghost try_from_gives = { λ n r. r ≡ kind_from n };

    fn try_from(n: u8) -> Result<Kind, Refusal> {
        match n {
            1 => Ok(Kind::Solicit),
            3 => Ok(Kind::Request),
            5 => Ok(Kind::Renew),
            6 => Ok(Kind::Rebind),
            8 => Ok(Kind::Release),
            _ => Err(Refusal::Unserved),
        }
    }
}
