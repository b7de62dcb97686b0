// A panel's tables carried as bytes, for a caller in another language. Any bytes are taken: a byte past the end reads as 0, and
// is not written.
#![tactic(auto)]

ghost use Rattle.std.specs.Prelude.{◌≡◌, ℕ, ◌+◌, ◌*◌, ◌<◌, [], ◌∷◌};
ghost use lib.Seq.{sets};
ghost use Rattle.basics.specs.Below.{one_if, list_below};
ghost use Rattle.codec.specs.Numbers.{number_at};
ghost use Rattle.carried.specs.Laid.{Laid};
ghost use Rattle.carried.specs.Panels.{write_no_from, read_no_from, hold_from, line_from, operation_from, value_place, panel_from, head_bytes, w_bytes, r_bytes, hold_bytes, held_bytes, line_bytes, lines_bytes, operation_bytes, values_bytes, panel_bytes};

use basics::byte_if;
use form::{Operation, Tables};
use std::array;
use tables::{Hold, Line, ReadNo, WriteNo};

// ---- out of bytes

fn w_from(bytes: &[u8]) -> [WriteNo; 7]
    ensures { result ≡ list_below 7 (λ (j : ℕ). write_no_from bytes.now (8 + j)) }
{
    array::from_fn(|j| WriteNo(codec::byte_at(bytes, 8 + j)))
}

fn r_from(bytes: &[u8]) -> [ReadNo; 7]
    ensures { result ≡ list_below 7 (λ (j : ℕ). read_no_from bytes.now (15 + j)) }
{
    array::from_fn(|j| ReadNo(codec::byte_at(bytes, 15 + j)))
}

// At any place.
pub fn hold_from(bytes: &[u8], at: usize) -> Hold
    ensures { result ≡ hold_from bytes.now at }
{
    let at = at.min(bytes.len());
    Hold {
        full: codec::byte_at(bytes, at) != 0,
        value: codec::word_at(bytes, at + 1),
    }
}

fn held_from(bytes: &[u8]) -> [Hold; 7]
    ensures { result ≡ list_below 7 (λ (j : ℕ). hold_from bytes.now (22 + 5 * j)) }
{
    array::from_fn(|j| hold_from(bytes, 22 + 5 * j))
}

fn line_from(bytes: &[u8], at: usize) -> Line
    requires { at < 2000 }
    ensures { result ≡ line_from bytes.now at }
{
    Line {
        len: codec::byte_at(bytes, at),
        sn: array::from_fn(|k| WriteNo(codec::byte_at(bytes, at + 1 + k))),
    }
}

fn lines_from(bytes: &[u8]) -> [Line; 7]
    ensures { result ≡ list_below 7 (λ (j : ℕ). line_from bytes.now (57 + 101 * j)) }
{
    array::from_fn(|j| line_from(bytes, 57 + 101 * j))
}

#[tactic(auto, unfolding(crate::specs::Panels::operation_from, basics::specs::Choice::ite))]
fn operation_from(stage: u8, sn: u8) -> Operation
    ensures { result ≡ operation_from stage sn }
{
    match stage {
        1 => Operation::Writing,
        2 => Operation::FirstWait,
        3 => Operation::SecondWait(WriteNo(sn)),
        _ => Operation::Idle,
    }
}

#[tactic(auto, unfolding(crate::specs::Panels::value_place, basics::specs::Choice::ite))]
fn value_place(k: usize) -> usize
    requires { k < 201 }
    ensures { result ≡ value_place k }
{
    if k == 0 { 4 } else { 762 + 4 * k }
}

fn history_from(bytes: &[u8]) -> [u32; 201]
    ensures { result ≡ list_below 201 (λ (k : ℕ). number_at 4 bytes.now (value_place k)) }
{
    array::from_fn(|k| codec::word_at(bytes, value_place(k)))
}

#[tactic(auto, unfolding(crate::specs::Panels::panel_from))]
pub fn panel_from(bytes: &[u8]) -> Tables
    ensures { result ≡ panel_from bytes.now }
{
    Tables {
        n: codec::byte_at(bytes, 0),
        t: codec::byte_at(bytes, 1),
        writer: codec::byte_at(bytes, 2),
        number: codec::byte_at(bytes, 3),
        w: w_from(bytes),
        r: r_from(bytes),
        history: history_from(bytes),
        held: held_from(bytes),
        lines: lines_from(bytes),
        operation: operation_from(codec::byte_at(bytes, 764), codec::byte_at(bytes, 765)),
    }
}

// ---- into bytes

fn put_head(n: u8, t: u8, writer: u8, number: u8, initial: u32, out: &mut [u8])
    ensures { Laid out.old 0 (head_bytes n t writer number initial) out.new }
{
    codec::put_byte(out, 0, n);
    codec::put_byte(out, 1, t);
    codec::put_byte(out, 2, writer);
    codec::put_byte(out, 3, number);
    codec::put_word(out, 4, initial);
}

fn put_w(ws: &[WriteNo; 7], out: &mut [u8])
    ensures { Laid out.old 8 (w_bytes ws.now) out.new }
{
    for (j, x) in ws.iter().enumerate() {
        codec::put_byte(out, 8 + j, x.0);
    }
}

fn put_r(rs: &[ReadNo; 7], out: &mut [u8])
    ensures { Laid out.old 15 (r_bytes rs.now) out.new }
{
    for (j, x) in rs.iter().enumerate() {
        codec::put_byte(out, 15 + j, x.0);
    }
}

// At any place.
pub fn put_hold(h: Hold, at: usize, out: &mut [u8])
    ensures { Laid out.old at (hold_bytes h) out.new }
{
    let at = at.min(out.len());
    codec::put_byte(out, at, byte_if(h.full));
    codec::put_word(out, at + 1, h.value);
}

fn put_held(hs: &[Hold; 7], out: &mut [u8])
    ensures { Laid out.old 22 (held_bytes hs.now) out.new }
{
    for (j, h) in hs.iter().enumerate() {
        put_hold(*h, 22 + 5 * j, out);
    }
}

fn put_line(l: &Line, at: usize, out: &mut [u8])
    requires { at < 2000 }
    ensures { Laid out.old at (line_bytes l.now) out.new }
{
    codec::put_byte(out, at, l.len);
    for (k, x) in l.sn.iter().enumerate() {
        codec::put_byte(out, at + 1 + k, x.0);
    }
}

fn put_lines(ls: &[Line; 7], out: &mut [u8])
    ensures { Laid out.old 57 (lines_bytes ls.now) out.new }
{
    for (j, l) in ls.iter().enumerate() {
        put_line(l, 57 + 101 * j, out);
    }
}

#[tactic(auto, unfolding(crate::specs::Panels::operation_bytes))]
fn operation_bytes(o: Operation) -> [u8; 2]
    ensures { result ≡ operation_bytes o }
{
    match o {
        Operation::Idle => [0, 0],
        Operation::Writing => [1, 0],
        Operation::FirstWait => [2, 0],
        Operation::SecondWait(sn) => [3, sn.0],
    }
}

fn put_operation(o: Operation, out: &mut [u8])
    ensures { Laid out.old 764 (operation_bytes o) out.new }
{
    let [stage, sn] = operation_bytes(o);
    codec::put_byte(out, 764, stage);
    codec::put_byte(out, 765, sn);
}

fn put_values(history: &[u32; 201], out: &mut [u8])
    ensures { Laid out.old 766 (values_bytes history.now) out.new }
{
    for (k, v) in history[1..].iter().enumerate() {
        codec::put_word(out, 766 + 4 * k, *v);
    }
}

pub fn panel_into(p: Tables, out: &mut [u8])
    ensures { out.new ≡ sets out.old 0 (panel_bytes p) }
{
    put_head(p.n, p.t, p.writer, p.number, p.history[0], out);
    put_w(&p.w, out);
    put_r(&p.r, out);
    put_held(&p.held, out);
    put_lines(&p.lines, out);
    put_operation(p.operation, out);
    put_values(&p.history, out);
}
