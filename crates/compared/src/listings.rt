// The bench's listing.
ghost use Rattle.std.specs.Prelude.{◌≡◌};
ghost use Rattle.steps.specs.Drain.{counted};
ghost use Rattle.listing.specs.Listing.{listing};

// The listing's length, or 0 where the area is refused.
#[unsafe(no_mangle)]
pub extern "C" fn compared_listing(schedule: &[u8], out: &mut [u8]) -> usize
    ensures { (result ≡ counted (listing schedule.now out.old).answer) × (out.new ≡ (listing schedule.now out.old).area) }
{
    listing::listing(schedule, out).unwrap_or(0)
}
