//! The first differing byte of a page.

ghost use Rattle.std.specs.Prelude.{◌≡◌, ◌<◌};
ghost use Rattle.bop_bits.specs.BitSets.{is_in};
ghost use Rattle.bop_bits.specs.declared.map.TheConstants.{PAGES};
ghost use Rattle.value_check.specs.FirstDifference.{first_difference};

use bop_bits::{ByteMask, DATA_FROM, PAGE_BYTES};
use page_image::Image;

/// A byte that was seen with one value and has another now.
#[derive(Clone, Copy, Debug, PartialEq, Eq)]
pub struct Difference {
    pub address: u32,
    pub seen: u8,
    pub now: u8,
}

/// The first byte of a page, among those in a set, in which two images differ. It takes no memory.
pub fn first_differing(now: &Image, seen: &Image, page: u32, which: &ByteMask) -> Option<Difference>
    requires { page < PAGES }
    ensures { result ≡ first_difference now.now.bytes seen.now.bytes page (is_in which.now.words) }
{
    let (ours, theirs) = (now.page(page), seen.page(page));
    for place in 0..PAGE_BYTES {
        let (now, seen) = (ours[place as usize], theirs[place as usize]);
        if now != seen && which.has(place) {
            return Some(Difference {
                address: DATA_FROM + PAGE_BYTES * page + place,
                seen,
                now,
            });
        }
    }
    None
}
