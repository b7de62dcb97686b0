// What one event does to a panel's tables: refused, or its rule and then the look at the operation. `room` is how many
// messages the lent area holds; a caller that lends none says 107.
#![tactic(auto)]

mod look;
mod rules;
mod take;

use basics::Refusal;
use form::Tables;
use messages::{Cast, Sends};
pub use rules::{proceed_from_done, read_done, read_from_done, write_done};
use tables::WriteNo;
pub use take::write_from_done;

// What an operation that ends comes to: the number of the finished write; the number and value read.
#[derive(Clone, Copy, Debug, PartialEq, Eq)]
pub enum Finished {
    Wrote(WriteNo),
    Gave(WriteNo, u32),
}

// The result of an event: why it is refused, or else what it finished, if anything.
pub type Answer = Result<Option<Finished>, Refusal>;

// The panel after a look at its operation, and what that finished.
#[derive(Clone, Copy)]
pub struct Looked {
    pub tables: Tables,
    pub finished: Option<Finished>,
}

// What taking one WRITE comes to: the next tables, and what goes out for it.
#[derive(Clone, Copy)]
pub struct Took {
    pub tables: Tables,
    pub cast: Cast,
}

// What the rule of an event comes to, before the operation is looked at.
#[derive(Clone, Copy)]
pub struct Ruled {
    pub tables: Tables,
    pub sends: Sends,
}

// What an event comes to: the next tables, the result, and what is sent.
#[derive(Clone, Copy)]
pub struct Done {
    pub tables: Tables,
    pub answer: Answer,
    pub sends: Sends,
}
