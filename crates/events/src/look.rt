// The look at the operation, after every accepted event: lines 3 and 4, 7 to 10.
ghost use Rattle.std.specs.Prelude.{◌≡◌, ◌≤◌};
ghost use Rattle.form.specs.Setting.{set_operation};
ghost use Rattle.form.specs.Asked.{Sized};
ghost use Rattle.events.specs.Asked.{Looks};
ghost use Rattle.events.specs.Rules.{value_of};
ghost use Rattle.events.specs.Look.{look_writing, look_second, look_first, look};
ghost use Rattle.events.specs.Events.{looked_at};

use crate::{Done, Finished, Looked, Ruled};
use basics::wide;
use form::{Operation, Tables};
use tables::WriteNo;

pub(crate) fn with_operation(p: Tables, o: Operation) -> Tables
    ensures { result ≡ set_operation p o }
{
    Tables { operation: o, ..p }
}

pub(crate) fn value_of(p: Tables, x: WriteNo) -> u32
    requires { x.0 ≤ 200 }
    ensures { result ≡ value_of p x.0 }
{
    let k = wide(x.0);
    p.history[k]
}

// line 3
fn look_writing(p: Tables) -> Looked
    requires { Sized p }
    ensures { result ≡ look_writing p }
{
    let i = wide(p.number) - 1;
    let ws = p.w;
    if tables::enough(p.n, p.t, tables::has_w(ws, p.n, ws[i])) {
        Looked {
            tables: with_operation(p, Operation::Idle),
            finished: Some(Finished::Wrote(ws[i])),
        }
    } else {
        Looked {
            tables: p,
            finished: None,
        }
    }
}

// lines 9 and 10
fn look_second(p: Tables, sn: WriteNo) -> Looked
    requires { sn.0 ≤ 200 }
    ensures { result ≡ look_second p sn }
{
    let ws = p.w;
    if tables::enough(p.n, p.t, tables::reaches_w(ws, p.n, sn)) {
        Looked {
            tables: with_operation(p, Operation::Idle),
            finished: Some(Finished::Gave(sn, value_of(p, sn))),
        }
    } else {
        Looked {
            tables: with_operation(p, Operation::SecondWait(sn)),
            finished: None,
        }
    }
}

// lines 7 and 8
fn look_first(p: Tables) -> Looked
    requires { Looks p }
    ensures { result ≡ look_first p }
{
    let i = wide(p.number) - 1;
    let rs = p.r;
    if tables::enough(p.n, p.t, tables::has_r(rs, p.n, rs[i])) {
        look_second(p, p.w[i])
    } else {
        Looked {
            tables: p,
            finished: None,
        }
    }
}

fn look(p: Tables) -> Looked
    requires { Looks p }
    ensures { result ≡ look p }
{
    match p.operation {
        Operation::Idle => Looked {
            tables: p,
            finished: None,
        },
        Operation::Writing => look_writing(p),
        Operation::FirstWait => look_first(p),
        Operation::SecondWait(sn) => look_second(p, sn),
    }
}

pub(crate) fn looked_at(q: Ruled) -> Done
    requires { Looks q.tables }
    ensures { result ≡ looked_at q }
{
    let l = look(q.tables);
    Done {
        tables: l.tables,
        answer: Ok(l.finished),
        sends: q.sends,
    }
}
