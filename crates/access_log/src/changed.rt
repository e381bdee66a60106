//! The changed things as tasks commit.

ghost use Rattle.std.specs.Prelude.{◌≡◌, ◌<◌, ◌&&◌, ◌||◌, ◌↔◌, ℕ, true, IsTrue};
ghost use Rattle.access_log.specs.Changed.{Follows, HasTouched, still_changed};
ghost use Rattle.access_log.specs.Held.{has_room, IsRoomy};
ghost use Rattle.access_log.specs.MaskedPages.{has_place, has_mask};
ghost use Rattle.access_log.specs.declared.spot.Spot.{Spot as AnySpot};
ghost use Rattle.bop_bits.specs.BitSets.{is_in};
ghost use Rattle.bop_bits.specs.declared.map.TheConstants.{PAGES};

use crate::log::Log;
use crate::masks::PageMasks;
use crate::places::Places;
use bop_bits::BitSet;

impl Places {
    /// The changed things after a task with this log has committed, where these were the changed
    /// ones before. It takes no memory.
    pub fn follow(&mut self, log: &Log)
        requires { IsRoomy self.old }
        ensures changed { Follows log.now self.old self.new }
        ensures room { (x : AnySpot) → has_room self.new x ≡ has_room self.old x }
    {
        let (first, wrote, after_fork) = (&log.first, &log.wrote, &log.after_fork);
        follow_bits(
            &mut self.registers,
            &first.registers,
            &wrote.registers,
            &after_fork.registers,
        );
        self.cursor = (self.cursor && !(first.cursor || wrote.cursor)) || after_fork.cursor;
        follow_bits(
            &mut self.pages,
            &first.pages,
            &wrote.pages,
            &after_fork.pages,
        );
        follow_bytes(
            &mut self.bytes,
            &first.bytes,
            &wrote.bytes,
            &after_fork.bytes,
        );
    }
}

fn follow_bits<const WORDS: usize>(
    changed: &mut BitSet<WORDS>,
    first: &BitSet<WORDS>,
    wrote: &BitSet<WORDS>,
    after_fork: &BitSet<WORDS>,
)
    ensures { (n : ℕ) → is_in changed.new.words n
        ≡ still_changed (is_in changed.old.words n) (is_in first.now.words n)
        (is_in wrote.now.words n) (is_in after_fork.now.words n) }
{
    changed.difference_with(first);
    changed.difference_with(wrote);
    changed.union_with(after_fork);
}

fn follow_bytes(
    changed: &mut PageMasks,
    first: &PageMasks,
    wrote: &PageMasks,
    after_fork: &PageMasks,
)
    requires { (p : ℕ) → p < PAGES → has_mask changed.old p ≡ true }
    ensures bytes { (p q : ℕ) → has_place changed.new p q
        ≡ still_changed (has_place changed.old p q) (has_place first.now p q)
        (has_place wrote.now p q) (has_place after_fork.now p q) }
    ensures room { (p : ℕ) → has_mask changed.new p ≡ has_mask changed.old p }
{
    changed.difference_with(first);
    changed.difference_with(wrote);
    changed.union_with(after_fork);
}

impl Log {
    /// Whether some byte of a page is touched.
    pub fn touched(&self, page: u32) -> bool
        requires { page < PAGES }
        ensures { IsTrue result ↔ HasTouched self.now page }
    {
        self.first.touches(page) || self.wrote.touches(page)
    }
}
