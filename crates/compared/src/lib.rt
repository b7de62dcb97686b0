// The proved calls, exported on numbers and byte slices for the comparison with the second program.
//
// A panel's call takes the tables as bytes (`carried`), and leaves in `out` the next panel and, behind it, the answer. A network's
// calls stand in networks.rt, the listing in listings.rt.
#![tactic(auto)]

mod listings;
mod networks;

ghost use Rattle.std.specs.Prelude.{◌≡◌, not, ◌<◌, ◌∷◌, eqb};
ghost use lib.Seq.{sets};
ghost use Rattle.std.specs.Result.{result_unwrap_or};
ghost use Rattle.basics.specs.Below.{one_if};
ghost use Rattle.basics.specs.Refusal.{code};
ghost use Rattle.codec.specs.Numbers.{bytes_of};
ghost use Rattle.messages.specs.Area.{Area};
ghost use Rattle.form.specs.Form.{in_form};
ghost use Rattle.refusals.specs.Refusals.Event.{write, read, write_from, read_from, proceed_from};
ghost use Rattle.panel.specs.Calls.{called, made, nothing, panel_of};
ghost use Rattle.carried.specs.Laid.{Laid};
ghost use Rattle.carried.specs.Panels.{panel_from, panel_bytes};
ghost use Rattle.wire.specs.Messages.{reading, writing};
ghost use Rattle.compared.specs.Told.{read_refusal, read_kind, read_value, read_used, write_refusal, write_used};
ghost use Rattle.compared.specs.Reported.{answer_bytes, outcome_bytes, Reported, reported};

use basics::{Refusal, byte_if};
use events::{Answer, Finished};
use panel::{Outcome, Panel};

// The refusal's number, or 0 where there is none.
fn code<T: Drop>(answer: Result<T, Refusal>) -> u8
    ensures { result ≡ code answer }
{
    match answer {
        Ok(_) => 0,
        Err(refusal) => refusal.number(),
    }
}

// ---- one message on the wire

#[unsafe(no_mangle)]
pub extern "C" fn compared_read_refusal(bytes: &[u8]) -> u8
    ensures { result ≡ read_refusal (reading bytes.now) }
{
    code(wire::read_message(bytes))
}

#[unsafe(no_mangle)]
pub extern "C" fn compared_read_kind(bytes: &[u8]) -> u8
    ensures { result ≡ read_kind (reading bytes.now) }
{
    wire::read_message(bytes).map_or(0, |taken| taken.kind.byte())
}

#[unsafe(no_mangle)]
pub extern "C" fn compared_read_value(bytes: &[u8]) -> u32
    ensures { result ≡ read_value (reading bytes.now) }
{
    wire::read_message(bytes).map_or(0, |taken| taken.value)
}

#[unsafe(no_mangle)]
pub extern "C" fn compared_read_used(bytes: &[u8]) -> usize
    ensures { result ≡ read_used (reading bytes.now) }
{
    wire::read_message(bytes).map_or(0, |taken| taken.used)
}

#[unsafe(no_mangle)]
pub extern "C" fn compared_write_refusal(kind: u8, value: u32, area: &mut [u8]) -> u8
    ensures { (result ≡ write_refusal (writing kind value area.old).answer) × (area.new ≡ (writing kind value area.old).area) }
{
    code(wire::write_message(kind, value, area))
}

#[unsafe(no_mangle)]
pub extern "C" fn compared_write_used(kind: u8, value: u32, area: &mut [u8]) -> usize
    ensures { (result ≡ write_used (writing kind value area.old).answer) × (area.new ≡ (writing kind value area.old).area) }
{
    wire::write_message(kind, value, area).unwrap_or(0)
}

// ---- a lone panel

fn panel_of(bytes: &[u8]) -> Panel
    ensures { result ≡ panel_of (panel_from bytes.now) }
{
    Panel {
        tables: carried::panel_from(bytes),
    }
}

fn put_told(case: u8, number: u8, value: u32, at: usize, out: &mut [u8])
    requires { at < 12000 }
    ensures { Laid out.old at («case» ∷ number ∷ bytes_of 4 value) out.new }
{
    codec::put_byte(out, at, case);
    codec::put_byte(out, at + 1, number);
    codec::put_word(out, at + 2, value);
}

#[tactic(auto, unfolding(crate::specs::Reported::answer_bytes))]
fn put_answer(a: Answer, at: usize, out: &mut [u8])
    requires { at < 12000 }
    ensures { Laid out.old at (answer_bytes a) out.new }
{
    match a {
        Err(refusal) => put_told(0, refusal.number(), 0, at, out),
        Ok(None) => put_told(1, 0, 0, at, out),
        Ok(Some(Finished::Wrote(x))) => put_told(2, x.0, 0, at, out),
        Ok(Some(Finished::Gave(x, v))) => put_told(3, x.0, v, at, out),
    }
}

fn put_outcome(o: Outcome, out: &mut [u8]) -> usize
    ensures { (result ≡ o.count) × (out.new ≡ sets out.old 0 (outcome_bytes o)) }
{
    let p = o.panel;
    let a = o.answer;
    let t = p.tables;
    carried::panel_into(t, out);
    put_answer(a, 1566, out);
    o.count
}

#[unsafe(no_mangle)]
pub extern "C" fn compared_panel_write(
    tables: &[u8],
    v: u32,
    receivers: &mut [u8],
    kinds: &mut [u8],
    values: &mut [u32],
    out: &mut [u8],
) -> usize
    ensures { record { count = result; area = record { receivers = receivers.new; kinds = kinds.new; values = values.new }; out = out.new } ≡ reported out.old (called (panel_of (panel_from tables.now)) (write v) (record { receivers = receivers.old; kinds = kinds.old; values = values.old })) }
{
    let o = panel_of(tables).write(v, receivers, kinds, values);
    put_outcome(o, out)
}

#[unsafe(no_mangle)]
pub extern "C" fn compared_panel_read(
    tables: &[u8],
    receivers: &mut [u8],
    kinds: &mut [u8],
    values: &mut [u32],
    out: &mut [u8],
) -> usize
    ensures { record { count = result; area = record { receivers = receivers.new; kinds = kinds.new; values = values.new }; out = out.new } ≡ reported out.old (called (panel_of (panel_from tables.now)) read (record { receivers = receivers.old; kinds = kinds.old; values = values.old })) }
{
    let o = panel_of(tables).read(receivers, kinds, values);
    put_outcome(o, out)
}

#[unsafe(no_mangle)]
pub extern "C" fn compared_panel_write_from(
    tables: &[u8],
    j: u8,
    bit: u8,
    v: u32,
    receivers: &mut [u8],
    kinds: &mut [u8],
    values: &mut [u32],
    out: &mut [u8],
) -> usize
    ensures { record { count = result; area = record { receivers = receivers.new; kinds = kinds.new; values = values.new }; out = out.new } ≡ reported out.old (called (panel_of (panel_from tables.now)) (write_from j (not (eqb bit 0)) v) (record { receivers = receivers.old; kinds = kinds.old; values = values.old })) }
{
    let o = panel_of(tables).write_from(j, bit != 0, v, receivers, kinds, values);
    put_outcome(o, out)
}

#[unsafe(no_mangle)]
pub extern "C" fn compared_panel_read_from(
    tables: &[u8],
    j: u8,
    receivers: &mut [u8],
    kinds: &mut [u8],
    values: &mut [u32],
    out: &mut [u8],
) -> usize
    ensures { record { count = result; area = record { receivers = receivers.new; kinds = kinds.new; values = values.new }; out = out.new } ≡ reported out.old (called (panel_of (panel_from tables.now)) (read_from j) (record { receivers = receivers.old; kinds = kinds.old; values = values.old })) }
{
    let o = panel_of(tables).read_from(j, receivers, kinds, values);
    put_outcome(o, out)
}

#[unsafe(no_mangle)]
pub extern "C" fn compared_panel_proceed_from(
    tables: &[u8],
    j: u8,
    receivers: &mut [u8],
    kinds: &mut [u8],
    values: &mut [u32],
    out: &mut [u8],
) -> usize
    ensures { record { count = result; area = record { receivers = receivers.new; kinds = kinds.new; values = values.new }; out = out.new } ≡ reported out.old (called (panel_of (panel_from tables.now)) (proceed_from j) (record { receivers = receivers.old; kinds = kinds.old; values = values.old })) }
{
    let o = panel_of(tables).proceed_from(j, receivers, kinds, values);
    put_outcome(o, out)
}

#[unsafe(no_mangle)]
pub extern "C" fn compared_panel_in_form(tables: &[u8]) -> u8
    ensures { result ≡ one_if (in_form (panel_from tables.now)) }
{
    byte_if(panel_of(tables).in_form())
}

#[unsafe(no_mangle)]
pub extern "C" fn compared_panel_set_up(
    n: u8,
    t: u8,
    writer: u8,
    number: u8,
    initial: u32,
    out: &mut [u8],
) -> u8
    ensures { (result ≡ code (made n t writer number initial)) × (out.new ≡ sets out.old 0 (panel_bytes (result_unwrap_or (made n t writer number initial) nothing).tables)) }
{
    let made = Panel::set_up(n, t, writer, number, initial);
    let p = made.unwrap_or(Panel::nothing());
    let t = p.tables;
    carried::panel_into(t, out);
    code(made)
}
