// The network's steps: set-up, starts, deliveries, power loss and drain. Every public call takes any network and any numbers, and
// tries 2 first. Nothing here knows how a panel does its work.
#![tactic(auto)]

ghost use Rattle.std.specs.Prelude.{◌≡◌, true, ℕ, ◌+◌};
ghost use Rattle.std.specs.Result.{result_unwrap_or};
ghost use Rattle.basics.specs.Below.{list_below};
ghost use Rattle.panel.specs.Calls.{made, nothing};
ghost use Rattle.house.specs.NetForm.{net_form};
ghost use Rattle.house.specs.Search.{first_in};
ghost use Rattle.steps.specs.Steps.{checked, written, begun, delivered, lost};
ghost use Rattle.steps.specs.Search.{sought};
ghost use Rattle.steps.specs.Drain.{drain_in, drained};
ghost use Rattle.steps.specs.SetUp.{fresh_network, no_network, set_up};
ghost use Rattle.parts.specs.Steps.{step_in};

use basics::Refusal;
use house::{InFlight, Network};
use panel::Panel;
use parts::Step;
use std::array;
use steps::{Drained, Stepped};

// ---- the steps of a network in form

fn step_in(s: Network, m: Step) -> Stepped
    requires { net_form s ≡ true }
    ensures { result ≡ step_in s m }
{
    let mut after = s;
    let answer = parts::step_in_place(&mut after, m);
    Stepped {
        network: after,
        answer,
    }
}

// The step of any network: 2 is tried first.
#[tactic(auto, unfolding(steps::specs::Steps::checked, basics::specs::Choice::ite))]
fn step(s: Network, m: Step) -> Stepped
    ensures { result ≡ checked s (step_in s m) }
{
    if !house::in_form(s) {
        return Stepped {
            network: s,
            answer: Err(Refusal::NotInForm),
        };
    }
    step_in(s, m)
}

// ---- drain

fn first_in_flight(s: Network) -> Option<InFlight>
    ensures { result ≡ first_in s }
{
    house::first_in_flight(s.rows, s.down)
}

fn drain_in(s: Network) -> Drained
    requires { net_form s ≡ true }
    ensures { result ≡ drain_in s }
{
    house::whole(s);
    let mut at = s;
    let mut count = 0;
    while let Some(found) = first_in_flight(at) {
        let o = step_in(
            at,
            Step::Deliver {
                kind: found.kind,
                from: found.sender,
                to: found.receiver,
            },
        );
        if let Err(refusal) = o.answer {
            let answer = Err(refusal);
            return Drained { network: s, answer };
        }
        at = o.network;
        count += 1;
    }
    Drained {
        network: at,
        answer: Ok(count),
    }
}

// ---- set-up

fn fresh_panels(n: u8, t: u8, writer: u8, initial: u32) -> [Panel; 7]
    ensures { result ≡ list_below 7 (λ (i : ℕ). result_unwrap_or (made n t writer (i + 1) initial) nothing) }
{
    array::from_fn(|i| {
        Panel::set_up(n, t, writer, (i + 1) as u8, initial).unwrap_or(Panel::nothing())
    })
}

#[tactic(auto, unfolding(steps::specs::SetUp::fresh_network))]
fn fresh(n: u8, t: u8, writer: u8, initial: u32) -> Network
    ensures { result ≡ fresh_network n t writer initial }
{
    Network {
        panels: fresh_panels(n, t, writer, initial),
        rows: [channels::empty_row(); 7],
        down: [false; 7],
    }
}

// ---- the public calls

// A network of zeros: what stands where set-up makes none.
pub fn nothing() -> Network
    ensures { result ≡ no_network }
{
    fresh(0, 0, 0, 0)
}

#[tactic(auto, using(basics::proofs::Refusals::in_turn), unfolding(steps::specs::SetUp::set_up))]
pub fn set_up(n: u8, t: u8, writer: u8, initial: u32) -> Result<Network, Refusal>
    ensures { result ≡ set_up n t writer initial }
{
    Refusal::OutOfRange.when(!form::fits(n, t, writer))?;
    Ok(fresh(n, t, writer, initial))
}

pub fn in_form(s: Network) -> bool
    ensures { result ≡ net_form s }
{
    house::in_form(s)
}

#[tactic(auto, unfolding(parts::specs::Steps::step_in))]
pub fn write(s: Network, v: u32) -> Stepped
    ensures { result ≡ written s v }
{
    step(s, Step::Write(v))
}

#[tactic(auto, unfolding(parts::specs::Steps::step_in))]
pub fn read(s: Network, i: u8) -> Stepped
    ensures { result ≡ begun s i }
{
    step(s, Step::Read(i))
}

#[tactic(auto, unfolding(parts::specs::Steps::step_in))]
pub fn deliver(s: Network, kind: u8, i: u8, j: u8) -> Stepped
    ensures { result ≡ delivered s kind i j }
{
    step(
        s,
        Step::Deliver {
            kind,
            from: i,
            to: j,
        },
    )
}

#[tactic(auto, unfolding(parts::specs::Steps::step_in))]
pub fn lose_power(s: Network, i: u8) -> Stepped
    ensures { result ≡ lost s i }
{
    step(s, Step::Lose(i))
}

#[tactic(auto, using(basics::proofs::Refusals::in_turn), unfolding(steps::specs::Search::sought))]
pub fn next_delivery(s: Network) -> Result<Option<InFlight>, Refusal>
    ensures { result ≡ sought s }
{
    Refusal::NotInForm.when(!house::in_form(s))?;
    Ok(first_in_flight(s))
}

#[tactic(auto, unfolding(steps::specs::Drain::drained, basics::specs::Choice::ite))]
pub fn drain(s: Network) -> Drained
    ensures { result ≡ drained s }
{
    if !house::in_form(s) {
        let answer = Err(Refusal::NotInForm);
        return Drained { network: s, answer };
    }
    drain_in(s)
}
