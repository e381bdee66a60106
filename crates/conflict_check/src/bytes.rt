//! Conflicts in the bytes of a page that isn't shared.

ghost use Rattle.std.specs.Prelude.{◌≡◌, ◌<◌};
ghost use Rattle.access_log.specs.Held.{has};
ghost use Rattle.access_log.specs.Things.{IsSpot};
ghost use Rattle.access_log.specs.declared.spot.Spot.{Spot as AnySpot};
ghost use Rattle.bop_bits.specs.MemoryNumbers.{byte_at};
ghost use Rattle.bop_bits.specs.declared.map.TheConstants.{PAGES, PAGE_BYTES};
ghost use Rattle.conflict_check.specs.Verdict.{byte_conflict as byte_conflict_of, byte_test as byte_test_of};
ghost use Rattle.value_check.specs.FirstDifference.{address_of};
ghost use Rattle.value_check.specs.FirstOf.{first_of};

use crate::conflict::Conflict;
use access_log::{Places, Spot};
use bop_bits::{Class, DATA_FROM, PAGE_BYTES};
use page_image::Image;

/// The first conflict of a byte of a page, by the page's class.
pub(crate) fn bytes_conflict(
    first: &Places,
    changed: &Places,
    seen: &Image,
    now: &Image,
    class: Class,
    page: u32,
) -> Option<Conflict>
    requires { page < PAGES }
    ensures { result ≡ first_of
        (byte_conflict_of (has first.now) (has changed.now) seen.now.bytes now.now.bytes class page)
        PAGE_BYTES }
{
    for place in 0..PAGE_BYTES {
        if let Some(conflict) = byte_conflict(first, changed, seen, now, class, page, place) {
            return Some(conflict);
        }
    }
    None
}

/// The address of a place of a page.
pub(crate) fn address(page: u32, place: u32) -> u32
    requires page { page < PAGES }
    requires place { place < PAGE_BYTES }
    ensures at { result ≡ address_of page place }
    ensures spot { IsSpot (AnySpot.Byte result) }
{
    DATA_FROM + PAGE_BYTES * page + place
}

fn byte_conflict(
    first: &Places,
    changed: &Places,
    seen: &Image,
    now: &Image,
    class: Class,
    page: u32,
    place: u32,
) -> Option<Conflict>
    requires page { page < PAGES }
    requires place { place < PAGE_BYTES }
    ensures { result ≡ byte_conflict_of (has first.now) (has changed.now) seen.now.bytes now.now.bytes
        class page place }
{
    let at = address(page, place);
    if first.has(Spot::Byte(at)) {
        let is_changed = changed.has(Spot::Byte(at));
        byte_test(
            class,
            is_changed,
            at,
            byte_in(seen, page, place),
            byte_in(now, page, place),
        )
    } else {
        None
    }
}

/// The byte at a place of a page.
#[tactic(auto, using(value_check::proofs::FirstDifferenceLemmas::byte_of_page))]
fn byte_in(image: &Image, page: u32, place: u32) -> u8
    requires page { page < PAGES }
    requires place { place < PAGE_BYTES }
    ensures { result ≡ byte_at image.now.bytes (address_of page place) }
{
    image.page(page)[place as usize]
}

/// A byte by the class of its page.
fn byte_test(class: Class, changed: bool, at: u32, seen: u8, now: u8) -> Option<Conflict>
    ensures { result ≡ byte_test_of class changed at seen now }
{
    match class {
        Class::Shared => None,
        Class::Private if changed => Some(Conflict::Byte(at)),
        _ if seen == now => None,
        Class::Checked => Some(Conflict::Value(at, seen, now)),
        Class::Private => Some(Conflict::Stale(at, seen, now)),
    }
}
