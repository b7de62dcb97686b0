// The tables of a network: its panels, the channels between them, and which panels are down. Whether it is in form, and the first
// message in flight to a live panel. Every call here takes any network and any numbers.
#![tactic(auto)]

ghost use Rattle.std.specs.Prelude.{◌≡◌, true, not, ◌≤◌, ◌<◌};
ghost use Rattle.basics.specs.Choice.{both};
ghost use Rattle.basics.specs.Below.{all_below};
ghost use Rattle.events.specs.Rules.{value_of};
ghost use Rattle.unused.specs.Unused.{unused};
ghost use Rattle.house.specs.NetForm.{member_with, place_with, place_ok, channels_ok, downs_in, may_be_down, net_form};
ghost use Rattle.house.specs.Search.{flying, first_in};
ghost use Rattle.house.specs.Whole.{Whole};

use basics::{both, one_if};
use channels::Row;
use form::Tables;
use panel::Panel;

// Place 0 is panel 1; a row holds the channels that leave its panel.
#[derive(Clone, Copy)]
pub struct Network {
    pub panels: [Panel; 7],
    pub rows: [Row; 7],
    pub down: [bool; 7],
}

// A message in flight, by the numbers of its two panels and its kind.
#[derive(Clone, Copy, Debug, PartialEq, Eq)]
pub struct InFlight {
    pub sender: u8,
    pub receiver: u8,
    pub kind: u8,
}

// What the panels of a network agree on.
#[derive(Clone, Copy, PartialEq)]
struct Setting {
    n: u8,
    t: u8,
    writer: u8,
    initial: u32,
}

// ---- in form

impl Setting {
    // As one panel has it.
    #[tactic(auto, unfolding(events::specs::Rules::value_of))]
    fn of(p: &Tables) -> Setting
        ensures { result ≡ record { n = p.now.n; t = p.now.t; writer = p.now.writer; initial = value_of p.now 0 } }
    {
        Setting {
            n: p.n,
            t: p.t,
            writer: p.writer,
            initial: p.history[0],
        }
    }

    #[tactic(auto, unfolding(crate::specs::NetForm::member_with, basics::specs::Choice::both))]
    fn member_ok(self, p: Panel, number: u8) -> bool
        ensures { result ≡ member_with p.tables self.n self.t self.writer self.initial number }
    {
        p.in_form() && Setting::of(&p.tables) == self && p.tables.number == number
    }

    // What stands at place i: one of the n panels, or nothing.
    #[tactic(auto, unfolding(basics::specs::Choice::ite))]
    fn place_ok(self, p: Panel, down: bool, i: usize) -> bool
        requires { i < 7 }
        ensures { result ≡ place_with p.tables down self.n self.t self.writer self.initial i }
    {
        if i < usize::from(self.n) {
            self.member_ok(p, (i + 1) as u8)
        } else {
            nothing_at(p, down)
        }
    }
}

#[tactic(auto, unfolding(basics::specs::Choice::both))]
fn nothing_at(p: Panel, down: bool) -> bool
    ensures { result ≡ both (unused p.tables) (not down) }
{
    unused::unused(p.tables) && !down
}

#[tactic(auto, using(crate::proofs::Turns::all_turns), unfolding(crate::specs::NetForm::place_ok, events::specs::Rules::value_of))]
fn places_ok(s: Network) -> bool
    ensures { result ≡ all_below 7 (place_ok s) }
{
    let setting = Setting::of(&s.panels[0].tables);
    let mut ok = true;
    for i in 0..7 {
        ok = both(ok, setting.place_ok(s.panels[i], s.down[i], i));
    }
    ok
}

#[tactic(auto, using(crate::proofs::Turns::all_turns), unfolding(crate::specs::NetForm::channels_ok))]
fn rows_ok(s: Network) -> bool
    ensures { result ≡ all_below 7 (channels_ok s) }
{
    let n = s.panels[0].tables.n;
    let mut ok = true;
    for i in 0..7 {
        ok = both(ok, channels::row_ok(s.rows[i], n, i));
    }
    ok
}

// How many panels are down. Counted without a branch, since each power loss asks this.
#[tactic(auto, unfolding(crate::specs::NetForm::downs_in))]
pub fn downs(down: [bool; 7]) -> usize
    ensures { (result ≡ downs_in down) × (result ≤ 7) }
{
    let mut count = 0;
    for d in &down {
        count += one_if(*d);
    }
    count
}

// Whether m panels may be down at once.
#[tactic(auto, unfolding(crate::specs::NetForm::may_be_down))]
pub fn may_be_down(t: u8, m: usize) -> bool
    ensures { result ≡ may_be_down t m }
{
    m <= usize::from(t)
}

#[tactic(auto, unfolding(crate::specs::NetForm::net_form, basics::specs::Choice::both))]
pub fn in_form(s: Network) -> bool
    ensures { result ≡ net_form s }
{
    let n = s.panels[0].tables.n;
    let t = s.panels[0].tables.t;
    1 <= n && places_ok(s) && may_be_down(t, downs(s.down)) && rows_ok(s)
}

// ---- the search

// The first message in flight to a live panel, by sender, then receiver, then kind.
#[tactic(auto, using(crate::proofs::Turns::search_turns))]
pub fn first_in_flight(rows: [Row; 7], down: [bool; 7]) -> Option<InFlight>
    ensures { result ≡ first_in (flying rows down) }
{
    let mut found = None;
    'search: for from in 0..7 {
        let row = rows[from];
        for to in 0..7 {
            let c = row.to[to];
            let off = down[to];
            for kind in 0..4 {
                if !off && channels::has(c, kind) {
                    found = Some(InFlight {
                        sender: (from + 1) as u8,
                        receiver: (to + 1) as u8,
                        kind,
                    });
                    break 'search;
                }
            }
        }
    }
    found
}

// ---- lengths, which the arrays' types give

// Does nothing: its contract hands on what the types say.
pub fn whole(s: Network) -> bool
    ensures { (result ≡ true) × Whole s }
{
    true
}
