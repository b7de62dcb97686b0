// The numbers, holds and lines that a panel keeps, and what is worked out of them place by place. Every call here takes any
// tables and any numbers.
#![tactic(auto)]

ghost use Rattle.std.specs.Prelude.{◌≡◌, Bool, false, ℕ, ◌-◌, ◌≤◌, ◌<◌, leb, ltb, eqb, get_or, position, nat_lt, take};
ghost use Rattle.basics.specs.Choice.{ite, both};
ghost use Rattle.basics.specs.Below.{one_if, count_below};
ghost use Rattle.tables.specs.Marks.{has_w, reaches_w, has_r, is_other, marks, only_place};
ghost use Rattle.tables.specs.Form.{line_ok, hold_ok, quiet_ok, history_ok};
ghost use Rattle.tables.specs.Lines.{joined, leaving, without};

use basics::{both, choose, one_if};
use std::array;

// How far a panel is known to be with writes. Never counted or compared as a read number.
#[derive(Clone, Copy, Debug, PartialEq, Eq, PartialOrd, Ord)]
pub struct WriteNo(pub u8);

// Own reads, or the PROCEEDs of a peer. Never counted or compared as a write number.
#[derive(Clone, Copy, Debug, PartialEq, Eq, PartialOrd, Ord)]
pub struct ReadNo(pub u8);

// A held WRITE of a peer, if there is one.
#[derive(Clone, Copy, Debug, PartialEq, Eq)]
pub struct Hold {
    pub full: bool,
    pub value: u32,
}

impl Hold {
    // Nothing is held.
    pub const EMPTY: Hold = Hold {
        full: false,
        value: 0,
    };
}

// Waiting READs of a peer, oldest first, each with its write number.
#[derive(Clone, Copy, Debug, PartialEq, Eq)]
pub struct Line {
    pub len: u8,
    pub sn: [WriteNo; 100],
}

impl Line {
    // Nothing waits.
    pub const EMPTY: Line = Line {
        len: 0,
        sn: [WriteNo(0); 100],
    };
}

// ---- form

fn entry_ok(inside: bool, before: u8, x: u8, low: u8, high: u8) -> bool
    ensures { result ≡ ite inside (both (ltb low x) (both (leb x high) (leb before x))) (eqb x 0) }
{
    choose(inside, both(low < x, both(x <= high, before <= x)), x == 0)
}

// `place` is a byte, as the entries are, and no turn ends the loop: so the compiler tests sixteen entries at once, and with a wider
// count it does not.
#[tactic(auto, using(crate::proofs::Turns::testing), unfolding(crate::specs::Form::line_ok))]
pub fn line_ok(l: Line, low: WriteNo, high: WriteNo) -> bool
    ensures { result ≡ line_ok l low.0 high.0 }
{
    let mut ok = true;
    let mut before = l.sn[0].0;
    let mut place = 0u8;
    for x in &l.sn {
        let x = x.0;
        ok = both(ok, entry_ok(place < l.len, before, x, low.0, high.0));
        before = x;
        place += 1;
    }
    both(l.len <= 100, ok)
}

#[tactic(auto, unfolding(crate::specs::Form::hold_ok))]
pub fn hold_ok(h: Hold, low: WriteNo, high: WriteNo, at_writer: bool) -> bool
    ensures { result ≡ hold_ok h low.0 high.0 at_writer }
{
    let next = usize::from(low.0) + 2;
    let top = usize::from(high.0);
    let held = both(next <= 200, choose(at_writer, next <= top, true));
    choose(h.full, held, h.value == 0)
}

#[tactic(auto, unfolding(crate::specs::Form::quiet_ok))]
pub fn quiet_ok(h: Hold, l: Line) -> bool
    ensures { result ≡ quiet_ok h l }
{
    both(!h.full, l.len == 0)
}

#[tactic(auto, using(crate::proofs::Turns::testing))]
pub fn history_ok(history: [u32; 201], high: WriteNo) -> bool
    ensures { result ≡ history_ok history high.0 }
{
    let mut ok = true;
    for k in usize::from(high.0) + 1..201 {
        ok = both(ok, history[k] == 0);
    }
    ok
}

// ---- marks

// Which of the n panels pass the test at their place.
fn marked<F: Fn(usize) -> bool>(n: u8, test: F) -> [bool; 7]
    requires { (j : ℕ) → j < 7 → F.pre test j }
    ensures { (f : ℕ → Bool) → ((j : ℕ) → j < 7 → (b : Bool) → F.post test j b → b ≡ f j) → result ≡ marks n f }
{
    let end = usize::from(n);
    array::from_fn(
        |j|
            requires { F.pre test j }
        { both(j < end, test(j)) },
    )
}

#[tactic(auto, unfolding(crate::specs::Marks::has_w))]
pub fn has_w(ws: [WriteNo; 7], n: u8, x: WriteNo) -> [bool; 7]
    ensures { result ≡ marks n (has_w ws x.0) }
{
    marked(n, |j| ws[j] == x)
}

#[tactic(auto, unfolding(crate::specs::Marks::reaches_w))]
pub fn reaches_w(ws: [WriteNo; 7], n: u8, x: WriteNo) -> [bool; 7]
    ensures { result ≡ marks n (reaches_w ws x.0) }
{
    marked(n, |j| x <= ws[j])
}

#[tactic(auto, unfolding(crate::specs::Marks::has_r))]
pub fn has_r(rs: [ReadNo; 7], n: u8, y: ReadNo) -> [bool; 7]
    ensures { result ≡ marks n (has_r rs y.0) }
{
    marked(n, |j| rs[j] == y)
}

#[tactic(auto, unfolding(crate::specs::Marks::is_other))]
pub fn others(n: u8, me: u8) -> [bool; 7]
    ensures { result ≡ marks n (is_other me) }
{
    let own = usize::from(me);
    marked(n, |j| j + 1 != own)
}

pub fn only_place(k: usize) -> [bool; 7]
    ensures { result ≡ only_place k }
{
    array::from_fn(|j| j == k)
}

// Counted without a branch, since each event asks this.
pub fn enough(n: u8, t: u8, marked: [bool; 7]) -> bool
    ensures { result ≡ leb (n - t) (count_below 7 (λ (j : ℕ). get_or marked j false)) }
{
    let mut count = 0;
    for m in &marked {
        count += one_if(*m);
    }
    usize::from(n.saturating_sub(t)) <= count
}

// ---- lines

#[tactic(auto, using(crate::proofs::Turns::joining), unfolding(crate::specs::Lines::joined))]
pub fn joined(l: Line, x: WriteNo) -> Line
    ensures { result ≡ ite (ltb l.len 100) (joined l x) l }
{
    let mut m = l;
    if l.len < 100 {
        m.sn[usize::from(l.len)] = x;
        m.len += 1;
    }
    m
}

// The place of the first of the first len entries that is above x, if there is one.
fn first_above(sn: &[WriteNo], len: usize, x: WriteNo) -> Option<usize>
    ensures { result ≡ position (λ w. nat_lt x.0 w.0) (take len sn.now) }
{
    sn.iter().take(len).position(|w| x < *w)
}

// Up to the first entry above x, or all of them.
#[tactic(auto, using(crate::proofs::Turns::parting))]
pub fn leaving(l: Line, x: WriteNo) -> u8
    ensures { result ≡ leaving l x.0 }
{
    match first_above(&l.sn, usize::from(l.len), x) {
        Some(m) => m as u8,
        None => l.len,
    }
}

#[tactic(auto, using(crate::proofs::Turns::moving))]
pub fn without(l: Line, m: u8) -> Line
    ensures { result ≡ without l m }
{
    let from = usize::from(m).min(100);
    let mut sn = [WriteNo(0); 100];
    sn[..100 - from].copy_from_slice(&l.sn[from..]);
    Line {
        len: l.len.saturating_sub(m),
        sn,
    }
}
