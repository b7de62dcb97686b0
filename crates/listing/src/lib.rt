// The bench's listing: a schedule read record by record, each a call of the network, and a line for each into a lent area.
#![tactic(auto)]

mod records;

ghost use Rattle.std.specs.Prelude.{◌≡◌, ◌+◌, ◌^◌, ◌≤◌, ◌<◌, length};
ghost use Rattle.text.specs.Text.{line_text};
ghost use Rattle.steps.specs.Drain.{counted};
ghost use Rattle.listing.specs.Listing.{numbered_as, whole_text, longest, listing};
ghost use Rattle.listing.specs.Putting.{Put};

use basics::Refusal;
use house::Network;
use parts::Step;
use records::{after_turn, next_turn, opened};
use schedule::Record;
use text::Line;

// Where the bench reads on: nowhere any more; at the record at a place; or in a drain that has listed so many deliveries, and then at
// the record at a place.
#[derive(Clone, Copy)]
enum Ahead {
    Ended,
    Record(usize),
    Drain { at: usize, count: u32 },
}

// The bench has given a line, if there was one, and reads on ahead.
#[derive(Clone, Copy)]
struct Stand {
    line: Option<Line>,
    ahead: Ahead,
}

// What the bench does next: a step; the record to which its line tells the answer, if it tells one; and where it then stands.
#[derive(Clone, Copy)]
struct Turn {
    step: Step,
    tells: Option<Record>,
    stand: Stand,
}

// The network that the first record makes, and where the bench then stands.
#[derive(Clone, Copy)]
struct Start {
    network: Network,
    stand: Stand,
}

// ---- into the area

fn put_all(out: &mut [u8], at: usize, bytes: &[u8]) -> usize
    requires { at + length bytes.now < 2 ^ 63 }
    ensures { Put out.old at bytes.now out.new result }
{
    for (i, b) in bytes.iter().enumerate() {
        codec::put_byte(out, at + i, *b);
    }
    at + bytes.len()
}

fn put_line(out: &mut [u8], at: usize, step: u32, l: Line) -> usize
    requires { (at < 2 ^ 62) × (step < 100000) }
    ensures { Put out.old at (line_text (numbered_as step l)) out.new result × (result ≤ at + 34) }
{
    let t = text::line_text(Line { step, ..l });
    let bytes = t.bytes;
    put_all(out, at, &bytes[..t.length])
}

// The lines of a schedule that is not too long.
fn put_lines(schedule: &[u8], out: &mut [u8]) -> usize
    requires { length schedule.now ≤ 65536 }
    ensures { Put out.old 0 (whole_text schedule.now) out.new result × (result ≤ longest) }
{
    let first = text::first_line();
    let mut at = put_all(out, 0, &first);
    let mut step = 1;
    let start = opened(schedule);
    let mut b = start.stand;
    let mut s = start.network;
    while let Some(l) = b.line {
        at = put_line(out, at, step, l);
        step += 1;
        let turn = next_turn(schedule, b.ahead, s.rows, s.down);
        let answer = parts::step_in_place(&mut s, turn.step);
        b = after_turn(turn, answer);
    }
    at
}

const LONGEST: usize = 2799452;

// The most bytes that a schedule may have.
const MOST: usize = 65536;

pub fn listing(schedule: &[u8], out: &mut [u8]) -> Result<usize, Refusal>
    ensures out_after { record { answer = result; area = out.new } ≡ listing schedule.now out.old }
    ensures within { counted result ≤ length out.old }
{
    if out.len() < LONGEST {
        return Err(Refusal::AreaTooShort);
    }
    if MOST < schedule.len() {
        return Ok(put_all(out, 0, &text::too_long()));
    }
    Ok(put_lines(schedule, out))
}
