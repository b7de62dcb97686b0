// Schedule records. `next` is called on a reader; `record_at` takes a plain slice and a place, for callers that keep no reader.
ghost use Rattle.std.specs.Prelude.{◌≡◌};
ghost use Rattle.schedule.specs.Records.{reading};
ghost use Rattle.reader.specs.Reading.{Next};
ghost use Rattle.reader.specs.Records.{used, stepped, next};

use crate::Item;
pub use crate::{Reader, Step, new};
use schedule::{Taken, Unread};

impl Item for Taken {
    type Refused = Unread;

    ghost reading = { reading };

    ghost used = { used };

    fn read(schedule: &[u8], at: usize) -> Result<Taken, Unread> {
        schedule::read_record(schedule, at)
    }

    fn used(self) -> usize {
        self.used
    }
}

// The next record, or a refusal; the reader keeps its place.
pub fn next(r: &mut Reader) -> Result<Taken, Unread>
    ensures { record { read = result; reader = r.new } ≡ next r.old }
{
    crate::next(r)
}

pub fn record_at(schedule: &[u8], at: usize) -> Step<Taken, Unread>
    ensures { result ≡ stepped schedule.now at }
{
    crate::item_at(schedule, at)
}
