// What the lines are made of.
use rules::{Kind, Refusal};
use show::Hex;
use std::fmt;

// The type of a message, by its first byte.
#[derive(Clone, Copy)]
pub enum Type {
    Solicit,
    Advertise,
    Request,
    Renew,
    Rebind,
    Reply,
    Release,
    Other,
}

impl From<u8> for Type {
    fn from(kind: u8) -> Type {
        match kind {
            1 => Type::Solicit,
            2 => Type::Advertise,
            3 => Type::Request,
            5 => Type::Renew,
            6 => Type::Rebind,
            7 => Type::Reply,
            8 => Type::Release,
            _ => Type::Other,
        }
    }
}

impl From<Kind> for Type {
    fn from(kind: Kind) -> Type {
        match kind {
            Kind::Solicit => Type::Solicit,
            Kind::Request => Type::Request,
            Kind::Renew => Type::Renew,
            Kind::Rebind => Type::Rebind,
            Kind::Release => Type::Release,
        }
    }
}

impl fmt::Display for Type {
    fn fmt<W: fmt::Write>(&self, f: &mut fmt::Formatter<W>) -> fmt::Result {
        f.write_str(match self {
            Type::Solicit => "Solicit",
            Type::Advertise => "Advertise",
            Type::Request => "Request",
            Type::Renew => "Renew",
            Type::Rebind => "Rebind",
            Type::Reply => "Reply",
            Type::Release => "Release",
            Type::Other => "no message",
        })
    }
}

// A message that is heard: its type, what is odd about it, and its length.
#[derive(Clone, Copy)]
pub struct Heard<'a> {
    pub msg: &'a [u8],
    pub how: &'a str,
}

impl fmt::Display for Heard<'_> {
    fn fmt<W: fmt::Write>(&self, f: &mut fmt::Formatter<W>) -> fmt::Result {
        if let Some(kind) = self.msg.first() {
            write!(f, "{}", Type::from(*kind))?;
        }
        write!(f, "{}, {} bytes", self.how, self.msg.len())
    }
}

// How a step ended: the number that refused it, its text, or, where there is none, the word for that.
#[derive(Clone, Copy)]
pub struct End<'a> {
    pub outcome: Result<usize, Refusal>,
    pub text: &'a [u8],
    pub none: &'a str,
}

impl fmt::Display for End<'_> {
    fn fmt<W: fmt::Write>(&self, f: &mut fmt::Formatter<W>) -> fmt::Result {
        match self.outcome {
            Err(no) => write!(f, "refused {}", u64::from(no)),
            Ok(0) => write!(f, "{}", self.none),
            Ok(_) => write!(f, "{}", Hex(self.text)),
        }
    }
}
