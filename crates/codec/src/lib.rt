// Bytes and four-byte numbers, high byte first, in lent bytes. Every call takes any bytes and any place: past the end
// a byte reads as 0, and is not written.
#![tactic(auto)]

ghost use Rattle.std.specs.Prelude.{◌≡◌, get_or, set};
ghost use lib.Seq.{sets};
ghost use Rattle.codec.specs.Numbers.{bytes_of, number_at};

pub fn byte_at(s: &[u8], at: usize) -> u8
    ensures { result ≡ get_or s.now at 0 }
{
    s.get(at).copied().unwrap_or(0)
}

pub fn word_at(s: &[u8], at: usize) -> u32
    ensures { result ≡ number_at 4 s.now at }
{
    let at = at.min(s.len());
    u32::from_be_bytes([
        byte_at(s, at),
        byte_at(s, at + 1),
        byte_at(s, at + 2),
        byte_at(s, at + 3),
    ])
}

pub fn put_byte(area: &mut [u8], at: usize, b: u8)
    ensures { area.new ≡ set area.old at b }
{
    if at < area.len() {
        area[at] = b;
    }
}

pub fn put_word(area: &mut [u8], at: usize, v: u32)
    ensures { area.new ≡ sets area.old at (bytes_of 4 v) }
{
    let at = at.min(area.len());
    for (k, b) in v.to_be_bytes().iter().enumerate() {
        put_byte(area, at + k, *b);
    }
}
