// Messages on the wire. `next` is called on a reader; `message_at` takes plain bytes and a place, for callers that keep no reader.
ghost use Rattle.std.specs.Prelude.{◌≡◌};
ghost use Rattle.reader.specs.Reading.{Next};
ghost use Rattle.reader.specs.Messages.{reading_at, used, stepped, next};

use crate::Item;
pub use crate::{Reader, Step, new};
use basics::Refusal;
use wire::Taken;

impl Item for Taken {
    type Refused = Refusal;

    ghost reading = { reading_at };

    ghost used = { used };

    #[tactic(auto, using(crate::proofs::Behind::behind))]
    fn read(bytes: &[u8], at: usize) -> Result<Taken, Refusal> {
        let rest = bytes.get(at..).ok_or(Refusal::CutShort)?;
        wire::read_message(rest)
    }

    fn used(self) -> usize {
        self.used
    }
}

// The next message, or a refusal; the reader keeps its place.
pub fn next(r: &mut Reader) -> Result<Taken, Refusal>
    ensures { record { read = result; reader = r.new } ≡ next r.old }
{
    crate::next(r)
}

pub fn message_at(bytes: &[u8], at: usize) -> Step<Taken, Refusal>
    ensures { result ≡ stepped bytes.now at }
{
    crate::item_at(bytes, at)
}
