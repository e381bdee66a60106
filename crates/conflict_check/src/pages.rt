//! Conflicts in pages.

ghost use Rattle.std.specs.Prelude.{◌≡◌, ◌<◌, ℕ, true};
ghost use Rattle.access_log.specs.Held.{has};
ghost use Rattle.bop_bits.specs.BitSets.{is_in};
ghost use Rattle.bop_bits.specs.declared.map.TheConstants.{PAGES, PAGE_BYTES};
ghost use Rattle.conflict_check.specs.Verdict.{conflict_of_page as conflict_of_page_of, page_conflict as page_conflict_of, shared_conflict as shared_conflict_of, page_test as page_test_of};
ghost use Rattle.value_check.specs.FirstDifference.{first_difference};
ghost use Rattle.value_check.specs.FirstOf.{first_of};

use crate::bytes::{address, bytes_conflict};
use crate::conflict::Conflict;
use access_log::{Places, Spot};
use bop_bits::{BitSet, ByteMask, Class, PAGE_BYTES, PAGES};
use page_image::Image;
use rv_step::{Job, Record, State};
use value_check::{Difference, first_differing};

/// The first conflict of a page.
pub(crate) fn memory_conflict(
    job: &Job,
    truth: &State,
    changed: &Places,
    done: &Record,
) -> Option<Conflict>
    ensures { result ≡ first_of (conflict_of_page_of job.now truth.now changed.now done.now) PAGES }
{
    for page in 0..PAGES {
        if let Some(conflict) = conflict_of_page(job, truth, changed, done, page) {
            return Some(conflict);
        }
    }
    None
}

fn conflict_of_page(
    job: &Job,
    truth: &State,
    changed: &Places,
    done: &Record,
    page: u32,
) -> Option<Conflict>
    requires { page < PAGES }
    ensures { result ≡ conflict_of_page_of job.now truth.now changed.now done.now page }
{
    let first = done.log.first();
    if !first.touches(page) {
        return None;
    }
    let class = job.program.classes.class(page);
    let received = done.start.received.has(page);
    let (seen, now) = (&done.start.image, &truth.image);
    page_conflict(first, changed, seen, now, class, received, page)
}

fn page_conflict(
    first: &Places,
    changed: &Places,
    seen: &Image,
    now: &Image,
    class: Class,
    received: bool,
    page: u32,
) -> Option<Conflict>
    requires { page < PAGES }
    ensures { result ≡ page_conflict_of (has first.now) (has changed.now) seen.now.bytes now.now.bytes
        class received page }
{
    match class {
        Class::Shared => shared_conflict(first, changed, seen, now, received, page),
        Class::Checked => bytes_conflict(first, changed, seen, now, Class::Checked, page),
        Class::Private => bytes_conflict(first, changed, seen, now, Class::Private, page),
    }
}

fn shared_conflict(
    first: &Places,
    changed: &Places,
    seen: &Image,
    now: &Image,
    received: bool,
    page: u32,
) -> Option<Conflict>
    requires { page < PAGES }
    ensures { result ≡ shared_conflict_of (has first.now) (has changed.now) seen.now.bytes now.now.bytes
        received page }
{
    let at = address(page, 0);
    if first.has(Spot::Byte(at)) {
        let is_changed = changed.has(Spot::Byte(at));
        page_test(page, received, is_changed, difference_of(seen, now, page))
    } else {
        None
    }
}

/// A shared page, by whether it was received, whether it has changed, and its first byte that differs.
fn page_test(
    page: u32,
    received: bool,
    changed: bool,
    difference: Option<Difference>,
) -> Option<Conflict>
    ensures { result ≡ page_test_of page received changed difference }
{
    match difference {
        _ if changed && !received => Some(Conflict::Page(page)),
        None => None,
        Some(byte) if received => Some(Conflict::Value(byte.address, byte.seen, byte.now)),
        Some(byte) => Some(Conflict::Stale(byte.address, byte.seen, byte.now)),
    }
}

/// The first byte of a page in which two images differ.
fn difference_of(seen: &Image, now: &Image, page: u32) -> Option<Difference>
    requires { page < PAGES }
    ensures { result ≡ first_difference now.now.bytes seen.now.bytes page (λ place. true) }
{
    let whole = whole_page();
    first_differing(now, seen, page, &whole)
}

/// All bytes of a page.
fn whole_page() -> ByteMask
    ensures { (place : ℕ) → place < PAGE_BYTES → is_in result.words place ≡ true }
{
    let mut whole: ByteMask = BitSet::new();
    for place in 0..PAGE_BYTES {
        whole.set(place);
    }
    whole
}
