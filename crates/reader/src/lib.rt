// Reading one after the other. A reader holds a lent slice and its place in it; what is read moves the place behind it, and a
// refusal leaves the place where it is. `records` reads schedule records, `wire_messages` messages on the wire.
#![tactic(auto)]

ghost use Rattle.std.specs.Prelude.{◌≡◌, ◌+◌, ◌≤◌, ℕ, List, length, Result, IfOk};
ghost use Rattle.reader.specs.Reading.{Next, stepped, started, next};

pub mod records;
pub mod wire_messages;

// What a reader reads: how an item is read at a place of the bytes, and how many of them it used.
pub(crate) trait Item: Copy {
    type Refused: Copy;

    ghost reading: { List ℕ → ℕ → Result Self Self.Refused };

    ghost used: { Self → ℕ };

    // No item passes the end.
    fn read(bytes: &[u8], at: usize) -> Result<Self, Self::Refused>
        ensures reads { result ≡ reading bytes.now at }
        ensures within { IfOk result (λ i. at + used i ≤ length bytes.now) };

    fn used(self) -> usize
        ensures { result ≡ used self };
}

#[derive(Clone, Copy, Debug, PartialEq, Eq)]
pub struct Reader<'a> {
    pub bytes: &'a [u8],
    pub at: usize,
}

// What stands at a place, and the place behind it.
#[derive(Clone, Copy, Debug, PartialEq, Eq)]
pub struct Step<T, E> {
    pub read: Result<T, E>,
    pub at: usize,
}

// A reader at the start of the bytes.
pub fn new(bytes: &[u8]) -> Reader<'_>
    ensures { result ≡ started bytes.entry }
{
    Reader { bytes, at: 0 }
}

// The next item, or a refusal; the reader keeps its place.
pub(crate) fn next<T: Item>(r: &mut Reader) -> Result<T, T::Refused>
    ensures { record { read = result; reader = r.new } ≡ next T.reading T.used r.old }
{
    let item = T::read(r.bytes, r.at)?;
    r.at += item.used();
    Ok(item)
}

// What stands at a place of plain bytes, for callers that keep no reader.
pub(crate) fn item_at<T: Item>(bytes: &[u8], at: usize) -> Step<T, T::Refused>
    ensures { result ≡ stepped T.reading T.used bytes.now at }
{
    let mut r = Reader { bytes, at };
    let read = next(&mut r);
    Step { read, at: r.at }
}
