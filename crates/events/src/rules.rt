// Write, read, READ from a peer and PROCEED from a peer: lines 1, 2, 5, 6 and 19 to 22.
ghost use Rattle.std.specs.Prelude.{◌≡◌, ◌≤◌, ◌<◌, set};
ghost use Rattle.tables.specs.Places.{w_at, r_at, line_at};
ghost use Rattle.form.specs.Setting.{own_w, own_r, set_lines};
ghost use Rattle.form.specs.Asked.{Sized};
ghost use Rattle.events.specs.Rules.{learned, spread, write_rule, read_rule, read_from_rule, proceed_rule, sends_proceeds, sends_own};
ghost use Rattle.events.specs.Events.{happens, refused_by};
ghost use Rattle.refusals.specs.Refusals.Event.{write, read, read_from, proceed_from};

use crate::look::{looked_at, with_operation};
use crate::{Done, Ruled};
use basics::{Kind, Refusal, wide};
use form::{Operation, Tables};
use messages::{Cast, Sends, no_cast};
use refusals::{refused_proceed_from, refused_read, refused_read_from, refused_write};
use tables::{Line, ReadNo, WriteNo};

pub(crate) fn refused_by(p: Tables, refusal: Refusal) -> Done
    ensures { result ≡ refused_by p refusal }
{
    Done {
        tables: p,
        answer: Err(refusal),
        sends: messages::no_sends(),
    }
}

pub(crate) fn sends_own(c: Cast) -> Sends
    ensures { result ≡ sends_own c }
{
    Sends {
        own: c,
        held: no_cast(),
        peer: 0,
        proceeds: 0,
    }
}

pub(crate) fn sends_proceeds(k: usize, m: u8) -> Sends
    requires { k < 7 }
    ensures { result ≡ sends_proceeds k m }
{
    Sends {
        own: no_cast(),
        held: no_cast(),
        peer: (k + 1) as u8,
        proceeds: m,
    }
}

// lines 1 and 14
pub(crate) fn learned(p: Tables, v: u32) -> Tables
    requires { Sized p × (own_w p < 200) }
    ensures { result ≡ learned p v }
{
    let i = wide(p.number) - 1;
    let y = p.w[i].0;
    let x = wide(y) + 1;
    let mut q = p;
    q.w[i] = WriteNo(y + 1);
    q.history[x] = v;
    q
}

// lines 2 and 15
pub(crate) fn spread(p: Tables, v: u32) -> Cast
    requires { Sized p × (own_w p < 200) }
    ensures { result ≡ spread p v }
{
    let i = wide(p.number) - 1;
    let y = p.w[i];
    let mut ws = p.w;
    ws[i] = WriteNo(y.0 + 1);
    Cast {
        to: tables::has_w(ws, p.n, y),
        kind: (y.0 + 1) % 2,
        value: v,
    }
}

fn write_rule(p: Tables, v: u32) -> Ruled
    requires { Sized p × (own_w p < 200) }
    ensures { result ≡ write_rule p v }
{
    let c = spread(p, v);
    let q = learned(p, v);
    Ruled {
        tables: with_operation(q, Operation::Writing),
        sends: sends_own(c),
    }
}

pub fn write_done(p: Tables, room: usize, v: u32) -> Done
    ensures { result ≡ happens p room (write v) }
{
    match refused_write(p, room) {
        Ok(()) => looked_at(write_rule(p, v)),
        Err(refusal) => refused_by(p, refusal),
    }
}

fn asked(p: Tables) -> Tables
    requires { Sized p × (own_r p < 100) }
    ensures { result ≡ (read_rule p).tables }
{
    let i = wide(p.number) - 1;
    let y = p.r[i].0;
    let mut q = with_operation(p, Operation::FirstWait);
    q.r[i] = ReadNo(y + 1);
    q
}

fn read_rule(p: Tables) -> Ruled
    requires { Sized p × (own_r p < 100) }
    ensures { result ≡ read_rule p }
{
    let c = Cast {
        to: tables::others(p.n, p.number),
        kind: Kind::Read.byte(),
        value: 0,
    };
    Ruled {
        tables: asked(p),
        sends: sends_own(c),
    }
}

pub fn read_done(p: Tables, room: usize) -> Done
    ensures { result ≡ happens p room read }
{
    match refused_read(p, room) {
        Ok(()) => looked_at(read_rule(p)),
        Err(refusal) => refused_by(p, refusal),
    }
}

pub(crate) fn with_line(p: Tables, k: usize, l: Line) -> Tables
    requires { k < 7 }
    ensures { result ≡ set_lines p (set p.lines k l) }
{
    let mut q = p;
    q.lines[k] = l;
    q
}

// lines 19 to 21
fn read_from_rule(p: Tables, k: usize) -> Ruled
    requires { Sized p × (k < 7) × (w_at p.w k < own_w p → (line_at p.lines k).len < 100) }
    ensures { result ≡ read_from_rule p k }
{
    let i = wide(p.number) - 1;
    let sn = p.w[i];
    if sn.0 <= p.w[k].0 {
        return Ruled {
            tables: p,
            sends: sends_proceeds(k, 1),
        };
    }
    let l = p.lines[k];
    Ruled {
        tables: with_line(p, k, tables::joined(l, sn)),
        sends: sends_proceeds(k, 0),
    }
}

pub fn read_from_done(p: Tables, room: usize, j: u8) -> Done
    ensures { result ≡ happens p room (read_from j) }
{
    match refused_read_from(p, room, j) {
        Ok(()) => looked_at(read_from_rule(p, wide(j) - 1)),
        Err(refusal) => refused_by(p, refusal),
    }
}

// line 22
fn proceed_rule(p: Tables, k: usize) -> Ruled
    requires { (k < 7) × (r_at p.r k < 255) }
    ensures { result ≡ proceed_rule p k }
{
    let y = p.r[k].0;
    let mut q = p;
    q.r[k] = ReadNo(y + 1);
    Ruled {
        tables: q,
        sends: sends_proceeds(k, 0),
    }
}

pub fn proceed_from_done(p: Tables, room: usize, j: u8) -> Done
    ensures { result ≡ happens p room (proceed_from j) }
{
    match refused_proceed_from(p, room, j) {
        Ok(()) => looked_at(proceed_rule(p, wide(j) - 1)),
        Err(refusal) => refused_by(p, refusal),
    }
}
