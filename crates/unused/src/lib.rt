// Whether a panel's tables are unused. No test leaves a loop early: the compiler then tests many places at once.
#![tactic(auto)]

ghost use Rattle.std.specs.Prelude.{◌≡◌, ◌<◌};
ghost use Rattle.basics.specs.Below.{all_below};
ghost use Rattle.unused.specs.Unused.{line_unused, history_unused, place_unused, unused};

use form::Tables;
use tables::Line;

#[tactic(auto, unfolding(crate::specs::Unused::line_unused, crate::specs::Unused::entry_zero, basics::specs::Choice::both), using(crate::proofs::Testing::places))]
fn line_unused(l: &Line) -> bool
    ensures { result ≡ line_unused l.now }
{
    let mut zeros = true;
    for x in &l.sn {
        zeros &= x.0 == 0;
    }
    zeros & (l.len == 0)
}

#[tactic(auto, unfolding(crate::specs::Unused::history_unused, crate::specs::Unused::value_zero, basics::specs::Choice::both), using(crate::proofs::Testing::places))]
fn history_unused(history: &[u32; 201]) -> bool
    ensures { result ≡ history_unused history.now }
{
    let mut zeros = true;
    for v in history {
        zeros &= *v == 0;
    }
    zeros
}

// One place: how far with writes and with reads, the hold, the line.
#[tactic(auto, unfolding(crate::specs::Unused::place_unused, crate::specs::Unused::place_with, basics::specs::Choice::both))]
fn place_unused(p: &Tables, j: usize) -> bool
    requires { j < 7 }
    ensures { result ≡ place_unused p.now j }
{
    let h = p.held[j];
    (p.w[j].0 == 0) & (p.r[j].0 == 0) & !h.full & (h.value == 0) & line_unused(&p.lines[j])
}

#[tactic(auto, unfolding(basics::specs::Choice::both), using(crate::proofs::Testing::places))]
fn places_unused(p: &Tables) -> bool
    ensures { result ≡ all_below 7 (place_unused p.now) }
{
    let mut ok = true;
    for j in 0..7 {
        ok &= place_unused(p, j);
    }
    ok
}

#[tactic(auto, unfolding(crate::specs::Unused::unused, basics::specs::Choice::both))]
pub fn unused(p: Tables) -> bool
    ensures { result ≡ unused p }
{
    p.n == 0
        && p.t == 0
        && p.writer == 0
        && p.number == 0
        && places_unused(&p)
        && history_unused(&p.history)
        && p.operation.is_idle()
}
