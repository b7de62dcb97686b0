// The panel's events over a lent slice of message structs, in place of the three slices of numbers that the panel's own calls
// take. Each event is what `events` makes of it; its messages are laid into local arrays and poured from there into the slice.
#![tactic(auto)]

ghost use Rattle.std.specs.Prelude.{◌≡◌, ◌≤◌, ◌<◌, length};
ghost use Rattle.refusals.specs.Refusals.Event.{write, read, write_from, read_from, proceed_from};
ghost use Rattle.panel.specs.Calls.{called, told};
ghost use Rattle.edges.specs.Columns.{columns, columns_of, message_at, poured};

use events::Done;
use messages::Sends;
use panel::{Outcome, Panel};

#[derive(Clone, Copy)]
pub struct Message {
    pub to: u8,
    pub kind: u8,
    pub value: u32,
}

// What is sent, in columns: 7 messages at most by the event's own rule, 7 by a held WRITE, and 255 PROCEEDs.
#[derive(Clone, Copy)]
struct Columns {
    receivers: [u8; 269],
    kinds: [u8; 269],
    values: [u32; 269],
    count: usize,
}

fn columns_of(s: Sends) -> Columns
    ensures { (result ≡ columns_of s) × (result.count ≤ 269) }
{
    let mut receivers = [0u8; 269];
    let mut kinds = [0u8; 269];
    let mut values = [0u32; 269];
    let count = messages::lay(s, &mut receivers, &mut kinds, &mut values);
    Columns {
        receivers,
        kinds,
        values,
        count,
    }
}

fn message_at(c: &Columns, k: usize) -> Message
    requires { k < 269 }
    ensures { result ≡ message_at c.now k }
{
    Message {
        to: c.receivers[k],
        kind: c.kinds[k],
        value: c.values[k],
    }
}

// The first n messages go to their places, the last of them first.
#[tactic(auto, using(crate::proofs::Pouring::pours))]
fn pour(c: &Columns, n: usize, area: &mut [Message])
    requires { (n ≤ 269) × (n ≤ length area.old) }
    ensures { area.new ≡ poured c.now n area.old }
{
    for k in (0..n).rev() {
        area[k] = message_at(c, k);
    }
}

// What an event came to: its messages go into the area, as many as have a place there.
#[tactic(auto, using(crate::proofs::Pouring::tells))]
fn tell(d: Done, area: &mut [Message]) -> Outcome
    ensures { record { outcome = result; area = columns area.new } ≡ told d (columns area.old) }
{
    let columns = columns_of(d.sends);
    let count = columns.count;
    pour(&columns, count.min(area.len()), area);
    Outcome {
        panel: Panel { tables: d.tables },
        answer: d.answer,
        count,
    }
}

#[tactic(auto, using(crate::proofs::Pouring::calls))]
pub fn write(p: Panel, v: u32, area: &mut [Message]) -> Outcome
    ensures { record { outcome = result; area = columns area.new } ≡ called p (write v) (columns area.old) }
{
    tell(events::write_done(p.tables, area.len(), v), area)
}

#[tactic(auto, using(crate::proofs::Pouring::calls))]
pub fn read(p: Panel, area: &mut [Message]) -> Outcome
    ensures { record { outcome = result; area = columns area.new } ≡ called p read (columns area.old) }
{
    tell(events::read_done(p.tables, area.len()), area)
}

#[tactic(auto, using(crate::proofs::Pouring::calls))]
pub fn write_from(p: Panel, j: u8, bit: bool, v: u32, area: &mut [Message]) -> Outcome
    ensures { record { outcome = result; area = columns area.new } ≡ called p (write_from j bit v) (columns area.old) }
{
    tell(
        events::write_from_done(p.tables, area.len(), j, bit, v),
        area,
    )
}

#[tactic(auto, using(crate::proofs::Pouring::calls))]
pub fn read_from(p: Panel, j: u8, area: &mut [Message]) -> Outcome
    ensures { record { outcome = result; area = columns area.new } ≡ called p (read_from j) (columns area.old) }
{
    tell(events::read_from_done(p.tables, area.len(), j), area)
}

#[tactic(auto, using(crate::proofs::Pouring::calls))]
pub fn proceed_from(p: Panel, j: u8, area: &mut [Message]) -> Outcome
    ensures { record { outcome = result; area = columns area.new } ≡ called p (proceed_from j) (columns area.old) }
{
    tell(events::proceed_from_done(p.tables, area.len(), j), area)
}
