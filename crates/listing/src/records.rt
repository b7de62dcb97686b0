// What each record comes to: the line that it gives, the step that it is, and where the bench then stands.
ghost use Rattle.std.specs.Prelude.{◌≡◌, ◌<◌, Ok, Err};
ghost use Rattle.house.specs.Search.{flying, first_in};
ghost use Rattle.steps.specs.SetUp.{no_network};
ghost use Rattle.listing.specs.Entries.{panels_of, noted, entry, misplaced, unread, told, delivery_of, drain, drain_entry};
ghost use Rattle.listing.specs.Machine.{first_record, opened};
ghost use Rattle.listing.specs.declared.Ahead.TheVariants.{Ended};
ghost use Rattle.listing.specs.Turning.{bench_at, count_of, quiet, steps, step_of, drain_turn, taken_turn, record_turn, next_turn, after_turn};

use crate::{Ahead, Stand, Start, Turn};
use basics::Refusal;
use channels::Row;
use events::{Answer, Finished};
use house::InFlight;
use parts::Step;
use schedule::{Record, Taken, Unread};
use text::{Line, Noted, Panels};

// ---- lines, without their step numbers

// The panel numbers that a record's line shows.
#[tactic(auto, unfolding(crate::specs::Entries::panels_of, basics::specs::Choice::ite, basics::specs::Choice::both))]
fn panels_of(r: Record) -> Panels
    ensures { result ≡ panels_of r }
{
    match r.kind {
        3..=6 => Panels::Two(r.a, r.b),
        2 | 7 => Panels::One(r.a),
        _ => Panels::Neither,
    }
}

#[tactic(auto, unfolding(crate::specs::Entries::entry, basics::specs::Choice::ite, basics::specs::Choice::both))]
fn entry(r: Record, answer: u8, noted: Option<Noted>) -> Line
    ensures { result ≡ entry r answer noted }
{
    Line {
        step: 0,
        kind: r.kind,
        panels: panels_of(r),
        answer,
        result: noted,
    }
}

fn misplaced(r: Record) -> Line
    ensures { result ≡ misplaced r }
{
    entry(r, Refusal::SetUpMisplaced.number(), None)
}

#[tactic(auto, unfolding(crate::specs::Entries::unread, basics::specs::Choice::ite, basics::specs::Choice::both))]
fn unread(u: Unread) -> Line
    ensures { result ≡ unread u }
{
    Line {
        step: 0,
        kind: u.kind,
        panels: Panels::Neither,
        answer: u.refusal.number(),
        result: None,
    }
}

// The letter and the number of what finished.
#[tactic(auto, unfolding(crate::specs::Entries::noted, basics::specs::Choice::ite, basics::specs::Choice::both))]
fn noted(a: Answer) -> Option<Noted>
    ensures { result ≡ noted a }
{
    let (letter, number) = match a.ok()?? {
        Finished::Wrote(x) => (b'w', u32::from(x.0)),
        Finished::Gave(_, v) => (b'r', v),
    };
    Some(Noted { letter, number })
}

#[tactic(auto, unfolding(crate::specs::Entries::told, basics::specs::Choice::ite, basics::specs::Choice::both))]
fn told(r: Record, a: Answer) -> Line
    ensures { result ≡ told r a }
{
    entry(r, parts::code_of(a), noted(a))
}

// ---- turns

const THE_DRAIN: Record = Record {
    kind: 8,
    a: 0,
    b: 0,
    c: 0,
    value: 0,
};

// A drain's own line.
fn drain_entry(count: u32) -> Line
    ensures { result ≡ drain_entry count }
{
    let noted = Noted {
        letter: b'd',
        number: count,
    };
    entry(THE_DRAIN, 0, Some(noted))
}

// A delivery as a record.
#[tactic(auto, unfolding(crate::specs::Entries::delivery_of, basics::specs::Choice::ite, basics::specs::Choice::both))]
fn delivery_of(x: InFlight) -> Record
    requires { x.kind < 4 }
    ensures { result ≡ delivery_of x }
{
    Record {
        kind: x.kind + 3,
        a: x.sender,
        b: x.receiver,
        c: 0,
        value: 0,
    }
}

// No step, and the line is known, if there is one.
fn quiet(line: Option<Line>, ahead: Ahead) -> Turn
    ensures { result ≡ quiet line ahead }
{
    Turn {
        step: Step::Rest(0),
        tells: None,
        stand: Stand { line, ahead },
    }
}

// A step, and the line tells its answer to a record.
fn steps(step: Step, r: Record, ahead: Ahead) -> Turn
    ensures { result ≡ steps step r ahead }
{
    Turn {
        step,
        tells: Some(r),
        stand: Stand { line: None, ahead },
    }
}

// The step of a record; set-up and drain are none, and what this gives for them is not used.
#[tactic(auto, unfolding(crate::specs::Turning::step_of, basics::specs::Choice::ite, basics::specs::Choice::both))]
fn step_of(r: Record) -> Step
    ensures { result ≡ step_of r }
{
    match r.kind {
        1 => Step::Write(r.value),
        2 => Step::Read(r.a),
        7 => Step::Lose(r.a),
        _ => Step::Deliver {
            kind: r.kind.saturating_sub(3),
            from: r.a,
            to: r.b,
        },
    }
}

// The next delivery of a drain, or its own line.
#[tactic(auto, unfolding(crate::specs::Turning::drain_turn, basics::specs::Choice::some_or, basics::specs::Choice::ite, basics::specs::Choice::both))]
fn drain_turn(rows: [Row; 7], down: [bool; 7], at: usize, count: u32) -> Turn
    requires { count < 100000 }
    ensures { result ≡ drain_turn (first_in (flying rows down)) at count }
{
    match house::first_in_flight(rows, down) {
        None => quiet(Some(drain_entry(count)), Ahead::Record(at)),
        Some(x) => {
            let delivery = Step::Deliver {
                kind: x.kind,
                from: x.sender,
                to: x.receiver,
            };
            let count = count + 1;
            steps(delivery, delivery_of(x), Ahead::Drain { at, count })
        }
    }
}

// A record after the set-up; behind it stands place at.
#[tactic(auto, unfolding(crate::specs::Turning::taken_turn, basics::specs::Choice::ite, basics::specs::Choice::both))]
fn taken_turn(rows: [Row; 7], down: [bool; 7], r: Record, at: usize) -> Turn
    ensures { result ≡ taken_turn (first_in (flying rows down)) r at }
{
    match r.kind {
        0 => quiet(Some(misplaced(r)), Ahead::Record(at)),
        8 => drain_turn(rows, down, at, 0),
        _ => steps(step_of(r), r, Ahead::Record(at)),
    }
}

#[tactic(auto, unfolding(crate::specs::Turning::next_turn, crate::specs::Turning::record_turn, basics::specs::Choice::ite, basics::specs::Choice::both))]
pub(crate) fn next_turn(schedule: &[u8], ahead: Ahead, rows: [Row; 7], down: [bool; 7]) -> Turn
    requires { count_of ahead < 100000 }
    ensures { result ≡ next_turn schedule.now (first_in (flying rows down)) ahead }
{
    match ahead {
        Ahead::Ended => quiet(None, Ahead::Ended),
        Ahead::Drain { at, count } => drain_turn(rows, down, at, count),
        Ahead::Record(at) => {
            if schedule.len() <= at {
                return quiet(None, Ahead::Ended);
            }
            match schedule::read_record(schedule, at) {
                Ok(t) => taken_turn(rows, down, t.record, at + t.used),
                Err(u) => quiet(Some(unread(u)), Ahead::Ended),
            }
        }
    }
}

#[tactic(auto, unfolding(crate::specs::Turning::after_turn, basics::specs::Choice::some_or, basics::specs::Choice::ite, basics::specs::Choice::both))]
pub(crate) fn after_turn(t: Turn, a: Answer) -> Stand
    ensures { result ≡ after_turn t a }
{
    match t.tells {
        None => t.stand,
        Some(r) => Stand {
            line: Some(told(r, a)),
            ahead: t.stand.ahead,
        },
    }
}

// ---- the first record

// There is no network, and the bench has ended.
fn ended(line: Option<Line>) -> Start
    ensures { result ≡ record { network = no_network; stand = record { line = line; ahead = Ended } } }
{
    Start {
        network: network::nothing(),
        stand: Stand {
            line,
            ahead: Ahead::Ended,
        },
    }
}

#[tactic(auto, unfolding(crate::specs::Machine::first_record, crate::specs::Machine::first_made, basics::specs::Choice::ite, basics::specs::Choice::both))]
fn first_record(t: Taken) -> Start
    ensures { bench_at result.network result.stand ≡ first_record (Ok t) }
{
    let r = t.record;
    if r.kind != 0 {
        return ended(Some(misplaced(r)));
    }
    match network::set_up(r.a, r.b, r.c, r.value) {
        Err(refusal) => ended(Some(entry(r, refusal.number(), None))),
        Ok(network) => {
            let line = Some(entry(r, 0, None));
            let ahead = Ahead::Record(t.used);
            let stand = Stand { line, ahead };
            Start { network, stand }
        }
    }
}

#[tactic(auto, unfolding(crate::specs::Machine::opened, crate::specs::Machine::first_record, basics::specs::Choice::ite, basics::specs::Choice::both))]
pub(crate) fn opened(schedule: &[u8]) -> Start
    ensures { bench_at result.network result.stand ≡ opened schedule.now }
{
    if schedule.len() == 0 {
        return ended(None);
    }
    match schedule::read_record(schedule, 0) {
        Ok(t) => first_record(t),
        Err(u) => ended(Some(unread(u))),
    }
}
