// Whether a panel is in form, and the fresh panel.
#![tactic(auto)]

ghost use Rattle.std.specs.Prelude.{◌≡◌, ◌≤◌, ◌<◌};
ghost use Rattle.basics.specs.Below.{all_below};
ghost use Rattle.form.specs.Form.{fits, is_panel, place_ok, idle, operation_ok, in_form, fresh, empty_line};
ghost use Rattle.form.specs.Asked.{Sized};

use basics::{both, choose};
use tables::{Hold, Line, ReadNo, WriteNo};

// What a panel is doing: nothing; writing (line 3); reading, first wait (line 7); reading, second wait with its sn (line 9).
#[derive(Clone, Copy, Debug, PartialEq, Eq)]
pub enum Operation {
    Idle,
    Writing,
    FirstWait,
    SecondWait(WriteNo),
}

impl Operation {
    #[tactic(auto, unfolding(crate::specs::Form::idle))]
    pub fn is_idle(self) -> bool
        ensures { result ≡ idle self }
    {
        matches!(self, Operation::Idle)
    }
}

// The tables of panel `number` of `n`, of which `t` may be down. Place 0 of a table is panel 1.
#[derive(Clone, Copy)]
pub struct Tables {
    pub n: u8,
    pub t: u8,
    pub writer: u8,
    pub number: u8,
    pub w: [WriteNo; 7],
    pub r: [ReadNo; 7],
    pub history: [u32; 201],
    pub held: [Hold; 7],
    pub lines: [Line; 7],
    pub operation: Operation,
}

#[tactic(auto, unfolding(crate::specs::Form::fits, basics::specs::Choice::both))]
pub fn fits(n: u8, t: u8, writer: u8) -> bool
    ensures { result ≡ fits n t writer }
{
    1 <= n && n <= 7 && 2 * u32::from(t) < u32::from(n) && 1 <= writer && writer <= n
}

#[tactic(auto, unfolding(crate::specs::Form::is_panel, basics::specs::Choice::both))]
pub fn is_panel(n: u8, j: u8) -> bool
    ensures { result ≡ is_panel n j }
{
    1 <= j && j <= n
}

// One place: its numbers beside those of the panel itself, its hold and its line. All tests are made, without a branch.
#[tactic(auto, unfolding(crate::specs::Form::place_ok, crate::specs::Form::place_with, crate::specs::Form::at_writer))]
fn place_ok(p: &Tables, j: usize) -> bool
    requires sized { Sized p.now }
    requires within { j < 7 }
    ensures { result ≡ place_ok p.now j }
{
    let own = usize::from(p.number) - 1;
    let w = p.w[j];
    let r = p.r[j];
    let hold = tables::hold_ok(p.held[j], w, p.w[own], p.number == p.writer);
    let line = tables::line_ok(p.lines[j], w, p.w[own]);
    let quiet = tables::quiet_ok(p.held[j], p.lines[j]);
    let past = usize::from(p.n) <= j;
    let idle = choose(choose(past, true, j == own), quiet, true);
    let zero = choose(past, both(w.0 == 0, r.0 == 0), true);
    both(
        w <= p.w[own],
        both(r <= p.r[own], both(hold, both(line, both(idle, zero)))),
    )
}

#[tactic(auto, unfolding(basics::specs::Below::all_below), using(crate::proofs::InForming::places))]
fn places_ok(p: &Tables) -> bool
    requires { Sized p.now }
    ensures { result ≡ all_below 7 (place_ok p.now) }
{
    let mut ok = true;
    for j in 0..7 {
        ok = both(ok, place_ok(p, j));
    }
    ok
}

#[tactic(auto, unfolding(crate::specs::Form::operation_ok, basics::specs::Choice::both))]
fn operation_ok(o: Operation, at_writer: bool, x: WriteNo, y: ReadNo) -> bool
    ensures { result ≡ operation_ok o at_writer x.0 y.0 }
{
    match o {
        Operation::Idle => true,
        Operation::Writing => at_writer && 1 <= x.0,
        Operation::FirstWait => 1 <= y.0,
        Operation::SecondWait(sn) => 1 <= y.0 && sn <= x,
    }
}

#[tactic(auto, unfolding(crate::specs::Form::in_form, crate::specs::Form::at_writer, basics::specs::Choice::both), using(crate::proofs::InForming::places))]
pub fn in_form(p: Tables) -> bool
    ensures { result ≡ in_form p }
{
    if !fits(p.n, p.t, p.writer) || !is_panel(p.n, p.number) {
        return false;
    }
    let own = usize::from(p.number) - 1;
    let w = p.w[own];
    let r = p.r[own];
    w.0 <= 200
        && r.0 <= 100
        && places_ok(&p)
        && tables::history_ok(p.history, w)
        && operation_ok(p.operation, p.number == p.writer, w, r)
}

#[tactic(auto, unfolding(crate::specs::Form::fresh, crate::specs::Form::empty_line))]
pub fn fresh(n: u8, t: u8, writer: u8, number: u8, initial: u32) -> Tables
    ensures { result ≡ fresh n t writer number initial }
{
    let mut history = [0; 201];
    history[0] = initial;
    Tables {
        n,
        t,
        writer,
        number,
        w: [WriteNo(0); 7],
        r: [ReadNo(0); 7],
        history,
        held: [Hold::EMPTY; 7],
        lines: [Line::EMPTY; 7],
        operation: Operation::Idle,
    }
}
