// What every crate above shares: definitions in specs/, their laws in proofs/, and these functions of one line.
#![tactic(auto)]

mod kinds;
mod refused;

ghost use Rattle.std.specs.Prelude.{◌≡◌, min, ◌≤◌, ◌<◌};
ghost use Rattle.basics.specs.Choice.{ite, both};
ghost use Rattle.basics.specs.Below.{one_if};

pub use kinds::Kind;
pub use refused::Refusal;

// Tests put together without a branch, so that a loop over them runs over many places at once.

pub fn both(a: bool, b: bool) -> bool
    ensures { result ≡ both a b }
{
    if a { b } else { false }
}

pub fn choose(c: bool, a: bool, b: bool) -> bool
    ensures { result ≡ ite c a b }
{
    if c { a } else { b }
}

// A test as a number to count with.
pub fn one_if(b: bool) -> usize
    ensures { (result ≡ one_if b) × (result ≤ 1) }
{
    usize::from(b)
}

// A test as a byte.
pub fn byte_if(b: bool) -> u8
    ensures { result ≡ one_if b }
{
    u8::from(b)
}

pub fn wide(x: u8) -> usize
    ensures { (result ≡ x) × (result < 256) }
{
    usize::from(x)
}

pub fn least(a: usize, b: usize) -> usize
    ensures { result ≡ min a b }
{
    a.min(b)
}
