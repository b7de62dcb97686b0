// The four kinds of message, and the byte of each.
ghost use Rattle.std.specs.Prelude.{◌≡◌, ◌≤◌};
ghost use Rattle.basics.specs.Kinds.{byte_of, kind_of};

use crate::Refusal;
use std::fmt;

// A WRITE goes by the bit of its number.
#[derive(Clone, Copy, Debug, PartialEq, Eq, Hash)]
pub enum Kind {
    Write0 = 0,
    Write1 = 1,
    Read = 2,
    Proceed = 3,
}

impl Kind {
    pub fn byte(self) -> u8
        ensures byte { result ≡ byte_of self }
        ensures most { result ≤ 3 }
    {
        self as u8
    }
}

impl From<Kind> for u8 {
    ghost from_gives = { λ (kind : _) (byte : _). byte ≡ byte_of kind };

    fn from(kind: Kind) -> u8 {
        kind.byte()
    }
}

impl TryFrom<u8> for Kind {
    type Error = Refusal;

    ghost try_from_gives = { λ (byte : _) (kind : _). kind ≡ kind_of byte };

    fn try_from(byte: u8) -> Result<Self, Refusal> {
        match byte {
            0 => Ok(Kind::Write0),
            1 => Ok(Kind::Write1),
            2 => Ok(Kind::Read),
            3 => Ok(Kind::Proceed),
            _ => Err(Refusal::UnknownKind),
        }
    }
}

impl fmt::Display for Kind {
    fn fmt<W: fmt::Write>(&self, f: &mut fmt::Formatter<W>) -> fmt::Result {
        f.write_str(match self {
            Kind::Write0 => "WRITE0",
            Kind::Write1 => "WRITE1",
            Kind::Read => "READ",
            Kind::Proceed => "PROCEED",
        })
    }
}
