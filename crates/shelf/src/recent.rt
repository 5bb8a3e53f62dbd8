//! Where the same was found a short while ago.

ghost use Rattle.std.specs.Prelude.{◌≡◌, ◌<◌};

use crate::kept::Found;

/// For how many finds a place is known, at most: a power of two.
const SLOTS: usize = 1024;

/// Where some of the latest finds stand in their list. Packets of one socket find the same until a command writes, and a
/// lane has packets of few sockets at a time. It may be wrong of any place, and of another list it is: it only says
/// where to look.
#[derive(Debug, Drop)]
pub struct RecentFinds {
    places: [u32; SLOTS],
}

impl RecentFinds {
    /// Nothing was found yet.
    pub fn new() -> RecentFinds {
        RecentFinds { places: [0; SLOTS] }
    }

    /// Where this may stand.
    #[inline(always)]
    pub(crate) fn place(&self, found: &Found) -> u32 {
        self.places[slot_of(found)]
    }

    /// Notes where this stands.
    pub(crate) fn note(&mut self, found: &Found, place: u32) {
        self.places[slot_of(found)] = place;
    }
}

// The slot of a find. Each write has a version of its own, so the versions tell finds apart.
#[inline(always)]
fn slot_of(found: &Found) -> usize
    ensures { result < 1024 }
{
    let mixed = found
        .tag_version
        .wrapping_add(found.rules_version.wrapping_mul(3))
        .wrapping_add(found.owner_version.wrapping_mul(5))
        .wrapping_add(found.set_version.wrapping_mul(7));
    // The topmost ten bits of a product by a large odd number spread small numbers well.
    (mixed.wrapping_mul(2654435769) >> 22) as usize % SLOTS
}
