// A panel: it keeps its tables, takes one event, and hands the next panel back. Methods take the panel by value.
//
// `write`, `read`, `write_from`, `read_from` and `proceed_from` lay what they send into a lent message area, three slices.
// `after_write` and the like take no area, and hand what is sent back as it is.
#![tactic(auto)]

ghost use Rattle.std.specs.Prelude.{◌≡◌};
ghost use Rattle.messages.specs.Area.{Area};
ghost use Rattle.form.specs.Form.{in_form};
ghost use Rattle.refusals.specs.Refusals.Event.{write, read, write_from, read_from, proceed_from};
ghost use Rattle.panel.specs.Calls.{Called, after, called, made, next_of, nothing, told};

use basics::Refusal;
use events::{Answer, Done};
use form::Tables;
use messages::Sends;

#[derive(Clone, Copy)]
pub struct Panel {
    pub tables: Tables,
}

// The next panel, the result, and what is sent.
#[derive(Clone, Copy)]
pub struct Next {
    pub panel: Panel,
    pub answer: Answer,
    pub sends: Sends,
}

// The next panel, the result, and how many messages stand in the lent area.
#[derive(Clone, Copy)]
pub struct Outcome {
    pub panel: Panel,
    pub answer: Answer,
    pub count: usize,
}

fn next_of(d: Done) -> Next
    ensures { result ≡ next_of d }
{
    Next {
        panel: Panel { tables: d.tables },
        answer: d.answer,
        sends: d.sends,
    }
}

fn tell(d: Done, receivers: &mut [u8], kinds: &mut [u8], values: &mut [u32]) -> Outcome
    ensures { record { outcome = result; area = record { receivers = receivers.new; kinds = kinds.new; values = values.new } } ≡ told d (record { receivers = receivers.old; kinds = kinds.old; values = values.old }) }
{
    let count = messages::lay(d.sends, receivers, kinds, values);
    Outcome {
        panel: Panel { tables: d.tables },
        answer: d.answer,
        count,
    }
}

impl Panel {
    // A panel of zeros: what stands in a place that has no panel.
    #[tactic(auto, unfolding(crate::specs::Calls::nothing))]
    pub fn nothing() -> Panel
        ensures { result ≡ nothing }
    {
        Panel {
            tables: form::fresh(0, 0, 0, 0, 0),
        }
    }

    #[tactic(auto, using(basics::proofs::Refusals::in_turn), unfolding(crate::specs::Calls::made, crate::specs::Calls::set_up_trials))]
    pub fn set_up(n: u8, t: u8, writer: u8, number: u8, initial: u32) -> Result<Panel, Refusal>
        ensures { result ≡ made n t writer number initial }
    {
        Refusal::OutOfRange.when(!form::fits(n, t, writer))?;
        Refusal::NoSuchPanel.when(!form::is_panel(n, number))?;
        Ok(Panel {
            tables: form::fresh(n, t, writer, number, initial),
        })
    }

    pub fn in_form(self) -> bool
        ensures { result ≡ in_form self.tables }
    {
        form::in_form(self.tables)
    }

    pub fn after_write(self, v: u32) -> Next
        ensures { result ≡ after self (write v) }
    {
        next_of(events::write_done(self.tables, 107, v))
    }

    pub fn after_read(self) -> Next
        ensures { result ≡ after self read }
    {
        next_of(events::read_done(self.tables, 107))
    }

    pub fn after_write_from(self, j: u8, bit: bool, v: u32) -> Next
        ensures { result ≡ after self (write_from j bit v) }
    {
        next_of(events::write_from_done(self.tables, 107, j, bit, v))
    }

    pub fn after_read_from(self, j: u8) -> Next
        ensures { result ≡ after self (read_from j) }
    {
        next_of(events::read_from_done(self.tables, 107, j))
    }

    pub fn after_proceed_from(self, j: u8) -> Next
        ensures { result ≡ after self (proceed_from j) }
    {
        next_of(events::proceed_from_done(self.tables, 107, j))
    }

    pub fn write(
        self,
        v: u32,
        receivers: &mut [u8],
        kinds: &mut [u8],
        values: &mut [u32],
    ) -> Outcome
        ensures { record { outcome = result; area = record { receivers = receivers.new; kinds = kinds.new; values = values.new } } ≡ called self (write v) (record { receivers = receivers.old; kinds = kinds.old; values = values.old }) }
    {
        let room = messages::room_of(receivers, kinds, values);
        tell(
            events::write_done(self.tables, room, v),
            receivers,
            kinds,
            values,
        )
    }

    pub fn read(self, receivers: &mut [u8], kinds: &mut [u8], values: &mut [u32]) -> Outcome
        ensures { record { outcome = result; area = record { receivers = receivers.new; kinds = kinds.new; values = values.new } } ≡ called self read (record { receivers = receivers.old; kinds = kinds.old; values = values.old }) }
    {
        let room = messages::room_of(receivers, kinds, values);
        tell(
            events::read_done(self.tables, room),
            receivers,
            kinds,
            values,
        )
    }

    pub fn write_from(
        self,
        j: u8,
        bit: bool,
        v: u32,
        receivers: &mut [u8],
        kinds: &mut [u8],
        values: &mut [u32],
    ) -> Outcome
        ensures { record { outcome = result; area = record { receivers = receivers.new; kinds = kinds.new; values = values.new } } ≡ called self (write_from j bit v) (record { receivers = receivers.old; kinds = kinds.old; values = values.old }) }
    {
        let room = messages::room_of(receivers, kinds, values);
        tell(
            events::write_from_done(self.tables, room, j, bit, v),
            receivers,
            kinds,
            values,
        )
    }

    pub fn read_from(
        self,
        j: u8,
        receivers: &mut [u8],
        kinds: &mut [u8],
        values: &mut [u32],
    ) -> Outcome
        ensures { record { outcome = result; area = record { receivers = receivers.new; kinds = kinds.new; values = values.new } } ≡ called self (read_from j) (record { receivers = receivers.old; kinds = kinds.old; values = values.old }) }
    {
        let room = messages::room_of(receivers, kinds, values);
        tell(
            events::read_from_done(self.tables, room, j),
            receivers,
            kinds,
            values,
        )
    }

    pub fn proceed_from(
        self,
        j: u8,
        receivers: &mut [u8],
        kinds: &mut [u8],
        values: &mut [u32],
    ) -> Outcome
        ensures { record { outcome = result; area = record { receivers = receivers.new; kinds = kinds.new; values = values.new } } ≡ called self (proceed_from j) (record { receivers = receivers.old; kinds = kinds.old; values = values.old }) }
    {
        let room = messages::room_of(receivers, kinds, values);
        tell(
            events::proceed_from_done(self.tables, room, j),
            receivers,
            kinds,
            values,
        )
    }
}
