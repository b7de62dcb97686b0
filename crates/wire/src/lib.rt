// Messages on the wire: written into lent bytes, and read from the front of lent bytes.
#![tactic(auto)]

ghost use Rattle.std.specs.Prelude.{◌≡◌};
ghost use Rattle.codec.specs.Items.{size_of};
ghost use Rattle.wire.specs.Messages.{wire, reading, writing, Written};

use basics::{Kind, Refusal};

// A message that was read, and how many bytes it used.
#[derive(Clone, Copy, Debug, PartialEq, Eq)]
pub struct Taken {
    pub kind: Kind,
    pub value: u32,
    pub used: usize,
}

// How many bytes a message of this kind has; a byte that is no kind counts one.
#[tactic(auto, using(crate::proofs::Cases::sizes))]
pub fn size_of(kind: u8) -> usize
    ensures { result ≡ size_of wire kind }
{
    let Ok(kind) = Kind::try_from(kind) else {
        return 1;
    };
    match kind {
        Kind::Write0 | Kind::Write1 => 5,
        Kind::Read | Kind::Proceed => 1,
    }
}

#[tactic(auto, using(crate::proofs::Cases::read))]
pub fn read_message(bytes: &[u8]) -> Result<Taken, Refusal>
    ensures { result ≡ reading bytes.now }
{
    let [first, body @ ..] = bytes else {
        return Err(Refusal::CutShort);
    };
    let kind = Kind::try_from(*first)?;
    match kind {
        Kind::Write0 | Kind::Write1 => {
            if body.len() < 4 {
                return Err(Refusal::CutShort);
            }
            Ok(Taken {
                kind,
                value: codec::word_at(body, 0),
                used: 5,
            })
        }
        Kind::Read | Kind::Proceed => Ok(Taken {
            kind,
            value: 0,
            used: 1,
        }),
    }
}

// How many bytes the message used in the area.
#[tactic(auto, using(crate::proofs::Cases::written_by))]
pub fn write_message(kind: u8, value: u32, area: &mut [u8]) -> Result<usize, Refusal>
    ensures { record { answer = result; area = area.new } ≡ writing kind value area.old }
{
    let size = size_of(kind);
    if area.len() < size {
        return Err(Refusal::AreaTooShort);
    }
    match Kind::try_from(kind)? {
        Kind::Write0 | Kind::Write1 => codec::put_word(area, 1, value),
        Kind::Read | Kind::Proceed => {
            if value != 0 {
                return Err(Refusal::UnknownKind);
            }
        }
    }
    area[0] = kind;
    Ok(size)
}
