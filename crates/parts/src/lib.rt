// One step on the parts of a network that it touches: the panel that acts, the channels that leave it, those that a message comes from,
// and which panels are down. Every call here takes any parts and any numbers. Nothing here knows how a panel does its work.
//
// A network is large; whoever holds one lends it, and the parts are taken out, moved and put back in place.
#![tactic(auto)]

ghost use Rattle.std.specs.Prelude.{◌≡◌, true, false, ◌+◌, ◌-◌, ◌<◌, get_or, set};
ghost use Rattle.panel.specs.Calls.{after};
ghost use Rattle.promise.specs.View.{code_of};
ghost use Rattle.house.specs.NetForm.{may_be_down, downs_in};
ghost use Rattle.steps.specs.Steps.{is_pair, comes};
ghost use Rattle.parts.specs.Acting.{delivery_step, step_at, place_within, actor_of, sender_of, with_from, settled, written, begun, delivered, lost, moved};
ghost use Rattle.parts.specs.Steps.{by_parts};

use basics::{Kind, Refusal};
use channels::Row;
use events::Answer;
use house::Network;
use panel::{Next, Panel};

// A start of a write of a value, or of a read by a panel; a delivery of a message of a kind, by the numbers of its two panels; power loss
// of a panel; or no step, beside which a panel is named all the same.
#[derive(Clone, Copy, Debug, PartialEq, Eq)]
pub enum Step {
    Write(u32),
    Read(u8),
    Deliver { kind: u8, from: u8, to: u8 },
    Lose(u8),
    Rest(u8),
}

// The network's n, t and writer, who is down, the panel that acts, the channels that leave the sender, and those that leave the panel.
#[derive(Clone, Copy)]
pub struct Parts {
    pub n: u8,
    pub t: u8,
    pub writer: u8,
    pub down: [bool; 7],
    pub panel: Panel,
    pub from: Row,
    pub own: Row,
}

// The answer, and the parts afterwards.
#[derive(Clone, Copy)]
pub struct Moved {
    pub answer: Answer,
    pub parts: Parts,
}

// ---- steps by their numbers

// A message of a kind from panel i to panel j.
pub fn delivery(kind: u8, i: u8, j: u8) -> Step
    ensures { result ≡ delivery_step kind i j }
{
    Step::Deliver {
        kind,
        from: i,
        to: j,
    }
}

// 1 is a start of a write of v, 2 of a read by panel i, 3 a delivery of kind 0 to panel i that names no sender, 4 power loss of panel i;
// any other number is no step.
#[tactic(auto, unfolding(crate::specs::Acting::step_at, basics::specs::Choice::ite))]
pub fn step_at(what: u8, i: u8, v: u32) -> Step
    ensures { result ≡ step_at what i v }
{
    match what {
        1 => Step::Write(v),
        2 => Step::Read(i),
        3 => delivery(0, 0, i),
        4 => Step::Lose(i),
        _ => Step::Rest(i),
    }
}

// ---- places

// The place of panel i.
fn place_of(i: u8) -> usize
    ensures { result ≡ i - 1 }
{
    usize::from(i).saturating_sub(1)
}

// A place that a network has, and that of panel i if it has one.
#[tactic(auto, unfolding(crate::specs::Acting::place_within, basics::specs::Choice::ite))]
fn place_within(i: u8) -> usize
    ensures within { result ≡ place_within i }
    ensures seven { result < 7 }
{
    if i <= 7 { place_of(i) } else { 0 }
}

// The place of the panel that acts.
#[tactic(auto, unfolding(crate::specs::Acting::actor_of))]
pub fn actor(m: Step, writer: u8) -> usize
    ensures { (result ≡ actor_of m writer) × (result < 7) }
{
    match m {
        Step::Write(_) => place_within(writer),
        Step::Read(i) | Step::Lose(i) | Step::Rest(i) => place_within(i),
        Step::Deliver {
            kind: _,
            from: _,
            to,
        } => place_within(to),
    }
}

// The place of the sender in a delivery, and else of the panel that acts.
#[tactic(auto, unfolding(crate::specs::Acting::sender_of))]
pub fn sender(m: Step, writer: u8) -> usize
    ensures { (result ≡ sender_of m writer) × (result < 7) }
{
    match m {
        Step::Deliver {
            kind: _,
            from,
            to: _,
        } => place_within(from),
        Step::Write(_) | Step::Read(_) | Step::Lose(_) | Step::Rest(_) => actor(m, writer),
    }
}

// ---- what is tried

// Two different panels.
#[tactic(auto, unfolding(steps::specs::Steps::is_pair, basics::specs::Choice::both))]
fn is_pair(n: u8, i: u8, j: u8) -> bool
    ensures { result ≡ is_pair n i j }
{
    form::is_panel(n, i) && form::is_panel(n, j) && i != j
}

fn is_down(down: [bool; 7], i: u8) -> bool
    ensures { result ≡ get_or down (i - 1) false }
{
    down.get(place_of(i)).copied().unwrap_or(false)
}

// Whether one more panel may be down.
fn one_more_down(t: u8, down: [bool; 7]) -> bool
    ensures { result ≡ may_be_down t (downs_in down + 1) }
{
    house::may_be_down(t, house::downs(down) + 1)
}

// ---- who is down

fn down_too(down: [bool; 7], i: u8) -> [bool; 7]
    ensures { result ≡ set down (i - 1) true }
{
    let at = place_of(i);
    let mut down = down;
    if at < 7 {
        down[at] = true;
    }
    down
}

// ---- what a panel's event comes to

pub fn code_of(a: Answer) -> u8
    ensures { result ≡ code_of a }
{
    match a {
        Ok(_) => 0,
        Err(refusal) => refusal.number(),
    }
}

// The panel has come to q, and what it sends goes into its channels; `from` are the sender's channels afterwards. In line in each step, where q is
// known to lie apart from the parts: else the compiler asks for a `memmove`, which an archive for C would need from outside.
#[tactic(auto, using(basics::proofs::Refusals::in_turn), unfolding(crate::specs::Acting::settled, basics::specs::Refusal::unless, basics::specs::Refusal::met, basics::specs::Choice::ite))]
#[inline(always)]
fn settle(x: &mut Parts, from: Row, q: Next) -> Answer
    ensures { record { answer = result; parts = x.new } ≡ settled x.old (with_from x.old from) q }
{
    let finished = q.answer?;
    let posted = channels::post_all(x.own, q.sends);
    Refusal::ChannelFull.when(!posted.fits)?;
    x.panel = q.panel;
    x.from = from;
    x.own = posted.row;
    Ok(finished)
}

// A message of a kind from panel j comes to p; any byte that is no kind counts as a PROCEED.
#[tactic(auto, using(channels::proofs::Flying::kinds), unfolding(steps::specs::Steps::comes))]
fn come(p: Panel, kind: u8, j: u8, v: u32) -> Next
    ensures { result ≡ after p (comes kind j v) }
{
    match Kind::try_from(kind) {
        Ok(Kind::Write0) => p.after_write_from(j, false, v),
        Ok(Kind::Write1) => p.after_write_from(j, true, v),
        Ok(Kind::Read) => p.after_read_from(j),
        Ok(Kind::Proceed) | Err(_) => p.after_proceed_from(j),
    }
}

// ---- the steps, each made on the parts where they stand: refused, it leaves them as they were

#[tactic(auto, using(basics::proofs::Refusals::in_turn), unfolding(crate::specs::Acting::written, crate::specs::Acting::write_trials, crate::specs::Acting::tried, basics::specs::Refusal::unless))]
fn write(x: &mut Parts, v: u32) -> Answer
    ensures { record { answer = result; parts = x.new } ≡ written x.old v }
{
    Refusal::PanelDown.when(is_down(x.down, x.writer))?;
    let q = x.panel.after_write(v);
    settle(x, x.from, q)
}

#[tactic(auto, using(basics::proofs::Refusals::in_turn), unfolding(crate::specs::Acting::begun, crate::specs::Acting::read_trials, crate::specs::Acting::tried, basics::specs::Refusal::unless))]
fn read(x: &mut Parts, i: u8) -> Answer
    ensures { record { answer = result; parts = x.new } ≡ begun x.old i }
{
    Refusal::NoSuchPanel.when(!form::is_panel(x.n, i))?;
    Refusal::PanelDown.when(is_down(x.down, i))?;
    let q = x.panel.after_read();
    settle(x, x.from, q)
}

#[tactic(auto, using(basics::proofs::Refusals::in_turn), unfolding(crate::specs::Acting::delivered, crate::specs::Acting::deliver_trials, crate::specs::Acting::tried, basics::specs::Refusal::unless))]
fn deliver(x: &mut Parts, kind: u8, i: u8, j: u8) -> Answer
    ensures { record { answer = result; parts = x.new } ≡ delivered x.old kind i j }
{
    Refusal::NoSuchPanel.when(!is_pair(x.n, i, j))?;
    Refusal::PanelDown.when(is_down(x.down, j))?;
    let c = channels::channel_to(x.from, place_of(j));
    Refusal::NothingInFlight.when(!channels::has(c, kind))?;
    let q = come(x.panel, kind, i, channels::value_in(c, kind));
    let from = channels::taken(x.from, place_of(j), kind);
    settle(x, from, q)
}

#[tactic(auto, using(basics::proofs::Refusals::in_turn), unfolding(crate::specs::Acting::lost, crate::specs::Acting::lose_trials, crate::specs::Acting::tried, basics::specs::Refusal::unless))]
fn lose(x: &mut Parts, i: u8) -> Answer
    ensures { record { answer = result; parts = x.new } ≡ lost x.old i }
{
    Refusal::NoSuchPanel.when(!form::is_panel(x.n, i))?;
    Refusal::PanelDown.when(is_down(x.down, i))?;
    Refusal::TooManyDown.when(!one_more_down(x.t, x.down))?;
    x.down = down_too(x.down, i);
    Ok(None)
}

#[tactic(auto, unfolding(crate::specs::Acting::moved))]
fn act_in_place(x: &mut Parts, m: Step) -> Answer
    ensures { record { answer = result; parts = x.new } ≡ moved x.old m }
{
    match m {
        Step::Write(v) => write(x, v),
        Step::Read(i) => read(x, i),
        Step::Deliver { kind, from, to } => deliver(x, kind, from, to),
        Step::Lose(i) => lose(x, i),
        Step::Rest(_) => Ok(None),
    }
}

pub fn act(x: Parts, m: Step) -> Moved
    ensures { result ≡ moved x m }
{
    let mut parts = x;
    let answer = act_in_place(&mut parts, m);
    Moved { answer, parts }
}

// ---- in place

// The step of a network, made on it: the parts that the step touches are taken out, moved and put back, and all else stays where it is.
pub fn step_in_place(s: &mut Network, m: Step) -> Answer
    ensures { record { network = s.new; answer = result } ≡ by_parts s.old m }
{
    let first = s.panels[0];
    let f = first.tables;
    let to = actor(m, f.writer);
    let from = sender(m, f.writer);
    let down = s.down;
    let mut x = Parts {
        n: f.n,
        t: f.t,
        writer: f.writer,
        down,
        panel: s.panels[to],
        from: s.rows[from],
        own: s.rows[to],
    };
    let answer = act_in_place(&mut x, m);
    s.panels[to] = x.panel;
    s.rows[from] = x.from;
    s.rows[to] = x.own;
    let down = x.down;
    s.down = down;
    answer
}
