// WRITE from a peer: lines 11 to 18, the held WRITE, and the READs that may leave.
ghost use Rattle.std.specs.Prelude.{◌≡◌, ◌<◌, set};
ghost use Rattle.form.specs.Setting.{set_held};
ghost use Rattle.events.specs.Rules.{reached, take, take_held, released, take_rule, hold_rule};
ghost use Rattle.events.specs.Asked.{Takes, TakesAll, TakesHeld};
ghost use Rattle.events.specs.Events.{happens};
ghost use Rattle.refusals.specs.Refusals.Event.{write_from};

use crate::look::{looked_at, value_of};
use crate::rules::{learned, refused_by, sends_proceeds, spread, with_line};
use crate::{Done, Ruled, Took};
use basics::wide;
use form::Tables;
use messages::{Cast, Sends};
use refusals::{refused_write_from, right_bit};
use tables::{Hold, WriteNo};

// line 18
fn reached(p: Tables, k: usize, x: WriteNo) -> Tables
    requires { k < 7 }
    ensures { result ≡ reached p k x.0 }
{
    let mut q = p;
    q.w[k] = x;
    q
}

// lines 12 to 18
fn take(p: Tables, k: usize, v: u32) -> Took
    requires { Takes p k }
    ensures { result ≡ take p k v }
{
    let i = wide(p.number) - 1;
    let y = p.w[i].0;
    let x = p.w[k].0;
    if x == y {
        let c = spread(p, v);
        let q = learned(p, v);
        return Took {
            tables: reached(q, k, WriteNo(y + 1)),
            cast: c,
        };
    }
    let q = reached(p, k, WriteNo(x + 1));
    if x + 1 < y {
        let c = Cast {
            to: tables::only_place(k),
            kind: (x + 2) % 2,
            value: value_of(p, WriteNo(x + 2)),
        };
        return Took { tables: q, cast: c };
    }
    Took {
        tables: q,
        cast: messages::no_cast(),
    }
}

fn with_hold(p: Tables, k: usize, h: Hold) -> Tables
    requires { k < 7 }
    ensures { result ≡ set_held p (set p.held k h) }
{
    let mut q = p;
    q.held[k] = h;
    q
}

fn take_held(p: Tables, k: usize) -> Took
    requires { TakesHeld p k }
    ensures { result ≡ take_held p k }
{
    let h = p.held[k];
    if h.full {
        let q = with_hold(p, k, Hold::EMPTY);
        return take(q, k, h.value);
    }
    Took {
        tables: p,
        cast: messages::no_cast(),
    }
}

fn take_rule(p: Tables, k: usize, v: u32) -> Ruled
    requires { TakesAll p k }
    ensures { result ≡ take_rule p k v }
{
    let a = take(p, k, v);
    let q = a.tables;
    let own = a.cast;
    let b = take_held(q, k);
    let s = b.tables;
    let held = b.cast;
    let l = s.lines[k];
    let m = tables::leaving(l, s.w[k]);
    Ruled {
        tables: with_line(s, k, tables::without(l, m)),
        sends: Sends {
            own,
            held,
            peer: (k + 1) as u8,
            proceeds: m,
        },
    }
}

fn hold_rule(p: Tables, k: usize, v: u32) -> Ruled
    requires { k < 7 }
    ensures { result ≡ hold_rule p k v }
{
    let h = Hold {
        full: true,
        value: v,
    };
    Ruled {
        tables: with_hold(p, k, h),
        sends: sends_proceeds(k, 0),
    }
}

pub fn write_from_done(p: Tables, room: usize, j: u8, bit: bool, v: u32) -> Done
    ensures { result ≡ happens p room (write_from j bit v) }
{
    if let Err(refusal) = refused_write_from(p, room, j, bit) {
        return refused_by(p, refusal);
    }
    let k = wide(j) - 1;
    if right_bit(p, k, bit) {
        return looked_at(take_rule(p, k, v));
    }
    looked_at(hold_rule(p, k, v))
}
