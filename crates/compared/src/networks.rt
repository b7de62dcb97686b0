// A network's calls: each takes the tables as bytes (`conveyed`), and leaves in `out` the next network and, behind it, the answer.
ghost use Rattle.std.specs.Prelude.{◌≡◌};
ghost use lib.Seq.{sets};
ghost use Rattle.basics.specs.Below.{one_if};
ghost use Rattle.basics.specs.Refusal.{code};
ghost use Rattle.house.specs.NetForm.{net_form};
ghost use Rattle.steps.specs.Steps.{written, begun, delivered, lost};
ghost use Rattle.steps.specs.Search.{sought};
ghost use Rattle.steps.specs.Drain.{counted, drained};
ghost use Rattle.steps.specs.SetUp.{fresh_network, set_up};
ghost use Rattle.conveyed.specs.Networks.{network_from, network_bytes};
ghost use Rattle.compared.specs.Stepping.{stepped_bytes, drained_bytes, sought_bytes};

use crate::{code, put_answer};
use basics::{Refusal, byte_if};
use house::InFlight;
use steps::Stepped;

fn put_stepped(o: Stepped, out: &mut [u8])
    ensures { out.new ≡ sets out.old 0 (stepped_bytes o) }
{
    let s = o.network;
    let a = o.answer;
    conveyed::network_into(s, out);
    put_answer(a, 11557, out);
}

#[tactic(auto, unfolding(crate::specs::Stepping::sought_bytes, crate::specs::Stepping::found_bytes))]
fn sought_bytes(sought: Result<Option<InFlight>, Refusal>) -> [u8; 5]
    ensures { result ≡ sought_bytes sought }
{
    match sought {
        Ok(Some(found)) => [0, 1, found.sender, found.receiver, found.kind],
        Ok(None) => [0; 5],
        Err(refusal) => [refusal.number(), 0, 0, 0, 0],
    }
}

#[tactic(auto, using(crate::proofs::Stepping::setting_up))]
#[unsafe(no_mangle)]
pub extern "C" fn compared_network_set_up(
    n: u8,
    t: u8,
    writer: u8,
    initial: u32,
    out: &mut [u8],
) -> u8
    ensures { (result ≡ code (set_up n t writer initial)) × (out.new ≡ sets out.old 0 (network_bytes (fresh_network n t writer initial))) }
{
    let made = network::set_up(n, t, writer, initial);
    let s = made.unwrap_or(network::nothing());
    conveyed::network_into(s, out);
    code(made)
}

#[unsafe(no_mangle)]
pub extern "C" fn compared_network_in_form(tables: &[u8]) -> u8
    ensures { result ≡ one_if (net_form (network_from tables.now)) }
{
    let s = conveyed::network_from(tables);
    byte_if(network::in_form(s))
}

#[unsafe(no_mangle)]
pub extern "C" fn compared_network_write(tables: &[u8], v: u32, out: &mut [u8])
    ensures { out.new ≡ sets out.old 0 (stepped_bytes (written (network_from tables.now) v)) }
{
    let s = conveyed::network_from(tables);
    let o = network::write(s, v);
    put_stepped(o, out);
}

#[unsafe(no_mangle)]
pub extern "C" fn compared_network_read(tables: &[u8], i: u8, out: &mut [u8])
    ensures { out.new ≡ sets out.old 0 (stepped_bytes (begun (network_from tables.now) i)) }
{
    let s = conveyed::network_from(tables);
    let o = network::read(s, i);
    put_stepped(o, out);
}

#[unsafe(no_mangle)]
pub extern "C" fn compared_network_deliver(tables: &[u8], kind: u8, i: u8, j: u8, out: &mut [u8])
    ensures { out.new ≡ sets out.old 0 (stepped_bytes (delivered (network_from tables.now) kind i j)) }
{
    let s = conveyed::network_from(tables);
    let o = network::deliver(s, kind, i, j);
    put_stepped(o, out);
}

#[unsafe(no_mangle)]
pub extern "C" fn compared_network_lose_power(tables: &[u8], i: u8, out: &mut [u8])
    ensures { out.new ≡ sets out.old 0 (stepped_bytes (lost (network_from tables.now) i)) }
{
    let s = conveyed::network_from(tables);
    let o = network::lose_power(s, i);
    put_stepped(o, out);
}

#[unsafe(no_mangle)]
pub extern "C" fn compared_network_next_delivery(tables: &[u8], out: &mut [u8])
    ensures { out.new ≡ sets out.old 0 (sought_bytes (sought (network_from tables.now))) }
{
    let s = conveyed::network_from(tables);
    let [refusal, any, sender, receiver, kind] = sought_bytes(network::next_delivery(s));
    codec::put_byte(out, 0, refusal);
    codec::put_byte(out, 1, any);
    codec::put_byte(out, 2, sender);
    codec::put_byte(out, 3, receiver);
    codec::put_byte(out, 4, kind);
}

#[unsafe(no_mangle)]
pub extern "C" fn compared_network_drain(tables: &[u8], out: &mut [u8]) -> usize
    ensures { (result ≡ counted (drained (network_from tables.now)).answer) × (out.new ≡ sets out.old 0 (drained_bytes (drained (network_from tables.now)))) }
{
    let s = conveyed::network_from(tables);
    let o = network::drain(s);
    let next = o.network;
    conveyed::network_into(next, out);
    codec::put_byte(out, 11557, code(o.answer));
    o.answer.unwrap_or(0)
}
