// The refusals of each event, tried in the order of their numbers.
#![tactic(auto)]

ghost use Rattle.std.specs.Prelude.{◌≡◌, ◌-◌, ◌≤◌, ◌<◌};
ghost use Rattle.form.specs.Form.{in_form, at_writer};
ghost use Rattle.refusals.specs.Refusals.{is_peer, is_idle, right_bit, too_high, stray, line_full, first_trials, peer_trials, write_trials, read_trials, write_from_trials, read_from_trials, proceed_from_trials};
ghost use Rattle.tables.specs.Places.{w_at};
ghost use Rattle.basics.specs.Refusal.{met};
ghost use Rattle.form.specs.Asked.{Sized};

use basics::{Refusal, both, choose, one_if, wide};
use form::Tables;
use tables::WriteNo;

// 2 and 3
#[tactic(auto, using(basics::proofs::Refusals::in_turn), unfolding(crate::specs::Refusals::first_trials))]
fn refused_first(p: Tables, room: usize) -> Result<(), Refusal>
    ensures { result ≡ met (first_trials p room) }
{
    Refusal::NotInForm.when(!form::in_form(p))?;
    Refusal::AreaTooShort.when(room < 107)
}

// The last write number there is, and the last number of a panel's own reads.
const WRITES: u8 = 200;

const READS: u8 = 100;

#[tactic(auto, using(basics::proofs::Refusals::in_turn), unfolding(crate::specs::Refusals::write_trials, form::specs::Form::at_writer))]
pub fn refused_write(p: Tables, room: usize) -> Result<(), Refusal>
    ensures { result ≡ met (write_trials p room) }
{
    refused_first(p, room)?;
    Refusal::NotTheWriter.when(p.number != p.writer)?;
    Refusal::Unfinished.when(!p.operation.is_idle())?;
    let i = wide(p.number) - 1;
    Refusal::UsedUp.when(WRITES <= p.w[i].0)
}

#[tactic(auto, using(basics::proofs::Refusals::in_turn), unfolding(crate::specs::Refusals::read_trials))]
pub fn refused_read(p: Tables, room: usize) -> Result<(), Refusal>
    ensures { result ≡ met (read_trials p room) }
{
    refused_first(p, room)?;
    Refusal::Unfinished.when(!p.operation.is_idle())?;
    let i = wide(p.number) - 1;
    Refusal::UsedUp.when(READS <= p.r[i].0)
}

// 2, 3 and 4
#[tactic(auto, using(basics::proofs::Refusals::in_turn), unfolding(crate::specs::Refusals::peer_trials, crate::specs::Refusals::is_peer))]
fn refused_peer(p: Tables, room: usize, j: u8) -> Result<(), Refusal>
    ensures { result ≡ met (peer_trials p room j) }
{
    refused_first(p, room)?;
    let numbered = form::is_panel(p.n, j);
    Refusal::NoSuchPanel.when(!both(numbered, j != p.number))
}

fn number_at(ws: [WriteNo; 7], k: usize) -> WriteNo
    ensures { result.0 ≡ w_at ws k }
{
    ws.get(k).copied().unwrap_or(WriteNo(0))
}

pub fn right_bit(p: Tables, k: usize, bit: bool) -> bool
    ensures { result ≡ right_bit p k bit }
{
    let ws = p.w;
    let x = wide(number_at(ws, k).0);
    one_if(bit) == (x + 1) % 2
}

fn too_high(p: Tables, x: usize) -> bool
    requires { Sized p }
    ensures { result ≡ too_high p x }
{
    let i = wide(p.number) - 1;
    let y = wide(p.w[i].0);
    choose(200 < x, true, both(p.number == p.writer, y < x))
}

fn stray(p: Tables, k: usize, bit: bool) -> bool
    requires { Sized p × (k < 7) }
    ensures { result ≡ stray p k bit }
{
    let x = wide(p.w[k].0);
    let h = p.held[k];
    let next = too_high(p, x + 1);
    let held = choose(too_high(p, x + 2), true, h.full);
    choose(right_bit(p, k, bit), next, held)
}

#[tactic(auto, using(basics::proofs::Refusals::in_turn), unfolding(crate::specs::Refusals::write_from_trials))]
pub fn refused_write_from(p: Tables, room: usize, j: u8, bit: bool) -> Result<(), Refusal>
    ensures { result ≡ met (write_from_trials p room j bit) }
{
    refused_peer(p, room, j)?;
    Refusal::StrayWrite.when(stray(p, wide(j) - 1, bit))
}

#[tactic(auto, using(basics::proofs::Refusals::in_turn), unfolding(crate::specs::Refusals::read_from_trials, crate::specs::Refusals::line_full))]
pub fn refused_read_from(p: Tables, room: usize, j: u8) -> Result<(), Refusal>
    ensures { result ≡ met (read_from_trials p room j) }
{
    refused_peer(p, room, j)?;
    let i = wide(p.number) - 1;
    let k = wide(j) - 1;
    let behind = p.w[k].0 < p.w[i].0;
    let full = 100 <= p.lines[k].len;
    Refusal::LineFull.when(both(behind, full))
}

#[tactic(auto, using(basics::proofs::Refusals::in_turn), unfolding(crate::specs::Refusals::proceed_from_trials))]
pub fn refused_proceed_from(p: Tables, room: usize, j: u8) -> Result<(), Refusal>
    ensures { result ≡ met (proceed_from_trials p room j) }
{
    refused_peer(p, room, j)?;
    let i = wide(p.number) - 1;
    let k = wide(j) - 1;
    Refusal::StrayProceed.when(p.r[k].0 == p.r[i].0)
}
