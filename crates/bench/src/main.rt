// The bench: a schedule on standard input, its listing on standard output. What could not be read or written is said on
// standard error.
#![tactic(auto)]

ghost use Rattle.std.specs.Prelude.{◌≡◌, length, take, IfOk};
ghost use Rattle.bench.specs.Counts.{IsPrefixLen};
ghost use Rattle.listing.specs.Listing.{listing_of};

use std::io::{self, Read, Write};

// One byte more than a schedule may have, so that a longer one is known.
fn input_area() -> [u8; 65537]
    ensures { 65537 ≡ length result }
{
    [0; 65537]
}

// Every listing fits. The `ensures` gives the length alone: the checker would unfold a literal of this length.
fn output_area() -> [u8; 2799452]
    ensures { 2799452 ≡ length result }
{
    [0; 2799452]
}

// Reads until the area is full or the input ends, in chunks of any length; a read that fails is no end. The answer is how many
// bytes stand at the front of the area.
fn read_input<R: Read>(from: &mut R, area: &mut [u8]) -> io::Result<usize>
    ensures { IfOk result (λ n. IsPrefixLen n area.new) }
{
    let mut done = 0;
    while done < area.len() {
        let more = from.read(&mut area[done..])?;
        if more == 0 {
            break;
        }
        done += more;
    }
    Ok(done)
}

// Lays the listing at the front of the area, and answers its length.
fn lay(schedule: &[u8], area: &mut [u8]) -> usize
    requires { 2799452 ≡ length area.old }
    ensures prefix_len { IsPrefixLen result area.new }
    ensures area_after { take result area.new ≡ listing_of schedule.now }
{
    listing::listing(schedule, area).unwrap_or(0)
}

fn print_listing(rt: HostRuntime, schedule: &[u8]) {
    let mut area = output_area();
    let length = lay(schedule, &mut area);
    if rt.stdout().write_all(&area[..length]).is_err() {
        let _ = rt
            .stderr()
            .write_all(b"bench: standard output cannot be written\n");
    }
}

fn main(rt: HostRuntime) {
    let mut area = input_area();
    let Ok(length) = read_input(&mut rt.stdin(), &mut area) else {
        let _ = rt
            .stderr()
            .write_all(b"bench: standard input cannot be read\n");
        return;
    };
    print_listing(rt, &area[..length]);
}
