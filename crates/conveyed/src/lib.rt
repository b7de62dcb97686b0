// A network's tables carried as bytes, for a caller in another language: a panel as `carried` does it, and the channels and the
// flags behind. Any bytes are taken: a byte past the end reads as 0, and is not written.
#![tactic(auto)]

ghost use Rattle.std.specs.Prelude.{◌≡◌, ℕ, ◌+◌, ◌*◌, ◌<◌, [], ◌∷◌};
ghost use lib.Seq.{sets};
ghost use Rattle.basics.specs.Below.{one_if, list_below};
ghost use Rattle.carried.specs.Laid.{Laid};
ghost use Rattle.carried.specs.Panels.{panel_bytes};
ghost use Rattle.conveyed.specs.Networks.{member_from, flag_from, channel_from, row_from, network_from, members_bytes, down_bytes, channel_bytes, row_bytes, rows_bytes, network_bytes};

use basics::byte_if;
use channels::{Channel, Row};
use house::Network;
use panel::Panel;
use std::array;

// ---- out of bytes

#[tactic(auto, using(crate::proofs::Parts::parts), unfolding(crate::specs::Networks::member_from))]
fn member_from(bytes: &[u8], at: usize) -> Panel
    ensures { result ≡ member_from bytes.now at }
{
    let from = at.min(bytes.len());
    Panel {
        tables: carried::panel_from(&bytes[from..]),
    }
}

fn members_from(bytes: &[u8]) -> [Panel; 7]
    ensures { result ≡ list_below 7 (λ (i : ℕ). member_from bytes.now (1566 * i)) }
{
    array::from_fn(|i| member_from(bytes, 1566 * i))
}

#[tactic(auto, unfolding(crate::specs::Networks::flag_from))]
fn flag_from(bytes: &[u8], at: usize) -> bool
    ensures { result ≡ flag_from bytes.now at }
{
    codec::byte_at(bytes, at) != 0
}

fn down_from(bytes: &[u8]) -> [bool; 7]
    ensures { result ≡ list_below 7 (λ (i : ℕ). flag_from bytes.now (10962 + i)) }
{
    array::from_fn(|i| flag_from(bytes, 10962 + i))
}

#[tactic(auto, unfolding(crate::specs::Networks::channel_from))]
fn channel_from(bytes: &[u8], at: usize) -> Channel
    requires { at < 11900 }
    ensures { result ≡ channel_from bytes.now at }
{
    Channel {
        write0: carried::hold_from(bytes, at),
        write1: carried::hold_from(bytes, at + 5),
        reads: codec::byte_at(bytes, at + 10),
        proceeds: codec::byte_at(bytes, at + 11),
    }
}

fn row_from(bytes: &[u8], at: usize) -> Row
    requires { at < 11800 }
    ensures { result ≡ row_from bytes.now at }
{
    Row {
        to: array::from_fn(|j| channel_from(bytes, at + 12 * j)),
    }
}

fn rows_from(bytes: &[u8]) -> [Row; 7]
    ensures { result ≡ list_below 7 (λ (i : ℕ). row_from bytes.now (10969 + 84 * i)) }
{
    array::from_fn(|i| row_from(bytes, 10969 + 84 * i))
}

#[tactic(auto, unfolding(crate::specs::Networks::network_from))]
pub fn network_from(bytes: &[u8]) -> Network
    ensures { result ≡ network_from bytes.now }
{
    Network {
        panels: members_from(bytes),
        rows: rows_from(bytes),
        down: down_from(bytes),
    }
}

// ---- into bytes

#[tactic(auto, using(crate::proofs::Parts::parts))]
fn put_member(p: Panel, at: usize, out: &mut [u8])
    ensures { Laid out.old at (panel_bytes p.tables) out.new }
{
    if at < out.len() {
        carried::panel_into(p.tables, &mut out[at..]);
    }
}

#[tactic(auto, using(crate::proofs::Lengths::rows), unfolding(crate::specs::Networks::members_bytes))]
fn put_members(ps: &[Panel; 7], out: &mut [u8])
    ensures { Laid out.old 0 (members_bytes ps.now) out.new }
{
    for (i, p) in ps.iter().enumerate() {
        put_member(*p, 1566 * i, out);
    }
}

fn put_flag(b: bool, at: usize, out: &mut [u8])
    ensures { Laid out.old at (one_if b ∷ []) out.new }
{
    codec::put_byte(out, at, byte_if(b));
}

#[tactic(auto, using(crate::proofs::Lengths::rows), unfolding(crate::specs::Networks::down_bytes))]
fn put_down(down: &[bool; 7], out: &mut [u8])
    ensures { Laid out.old 10962 (down_bytes down.now) out.new }
{
    for (i, d) in down.iter().enumerate() {
        put_flag(*d, 10962 + i, out);
    }
}

fn put_channel(c: Channel, at: usize, out: &mut [u8])
    requires { at < 11900 }
    ensures { Laid out.old at (channel_bytes c) out.new }
{
    carried::put_hold(c.write0, at, out);
    carried::put_hold(c.write1, at + 5, out);
    codec::put_byte(out, at + 10, c.reads);
    codec::put_byte(out, at + 11, c.proceeds);
}

#[tactic(auto, using(crate::proofs::Lengths::rows), unfolding(crate::specs::Networks::row_bytes))]
fn put_row(r: &Row, at: usize, out: &mut [u8])
    requires { at < 11800 }
    ensures { Laid out.old at (row_bytes r.now) out.new }
{
    for (j, c) in r.to.iter().enumerate() {
        put_channel(*c, at + 12 * j, out);
    }
}

#[tactic(auto, using(crate::proofs::Lengths::rows), unfolding(crate::specs::Networks::rows_bytes))]
fn put_rows(rs: &[Row; 7], out: &mut [u8])
    ensures { Laid out.old 10969 (rows_bytes rs.now) out.new }
{
    for (i, r) in rs.iter().enumerate() {
        put_row(r, 10969 + 84 * i, out);
    }
}

pub fn network_into(s: Network, out: &mut [u8])
    ensures { out.new ≡ sets out.old 0 (network_bytes s) }
{
    put_members(&s.panels, out);
    put_down(&s.down, out);
    put_rows(&s.rows, out);
}
