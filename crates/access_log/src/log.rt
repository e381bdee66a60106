//! Logs.

ghost use Rattle.std.specs.Prelude.{◌≡◌, ◌<◌, ◌∷◌, [], true, false, not, IfOk, OnOk};
ghost use Rattle.access_log.specs.Held.{has, has_room};
ghost use Rattle.access_log.specs.Noted.{has_room_for, HoldsSame, Noted};
ghost use Rattle.access_log.specs.Things.{IsSpot, is_shared as is_shared_in, shared_by};
ghost use Rattle.access_log.specs.declared.spot.Spot.{Spot as AnySpot};

use crate::places::Places;
use crate::spot::Spot;
use bop_bits::{Class, Classes, DATA_FROM, PAGE_BYTES};
use bop_ends::OutOfMemory;
use std::alloc::Global;

/// What was first touched, what was written, and what of it after the fork, by the classes of the
/// pages.
#[derive(Drop)]
pub struct Log {
    pub(crate) classes: Classes,
    pub(crate) first: Places,
    pub(crate) wrote: Places,
    pub(crate) after_fork: Places,
    pub(crate) forked: bool,
}

impl Log {
    /// Nothing, before a fork.
    pub fn new(alloc: Global, classes: Classes) -> Result<Log, OutOfMemory>
        ensures classes { IfOk result (λ log. log.classes ≡ classes) }
        ensures forked { IfOk result (λ log. log.forked ≡ false) }
        ensures first { IfOk result (λ log. (x : AnySpot) → IsSpot x → has log.first x ≡ false) }
        ensures wrote { IfOk result (λ log. (x : AnySpot) → IsSpot x → has log.wrote x ≡ false) }
        ensures after_fork { IfOk result
            (λ log. (x : AnySpot) → IsSpot x → has log.after_fork x ≡ false) }
    {
        Ok(Log {
            classes,
            first: Places::new(alloc)?,
            wrote: Places::new(alloc)?,
            after_fork: Places::new(alloc)?,
            forked: false,
        })
    }

    /// Makes room to note a spot. Nothing else changes.
    pub fn room(&mut self, spot: Spot) -> Result<(), OutOfMemory>
        requires { IsSpot spot }
        ensures holds { HoldsSame self.old self.new }
        ensures more { (x : AnySpot)
            → has_room_for self.old x ≡ true → has_room_for self.new x ≡ true }
        ensures room { OnOk result (has_room_for self.new spot ≡ true) }
    {
        if self.is_shared(spot) {
            return Ok(());
        }
        self.first.room(spot)?;
        self.wrote.room(spot)?;
        self.after_fork.room(spot)
    }

    /// Notes a read: of what nothing has written before, or of a shared page.
    pub fn note_read(&mut self, spot: Spot)
        requires spot { IsSpot spot }
        requires room { has_room_for self.old spot ≡ true }
        ensures { Noted self.old self.new (spot ∷ []) [] }
    {
        match spot {
            Spot::Byte(at) if self.is_shared(spot) => self.note_shared_read(at),
            _ => self.note_own_read(spot),
        }
    }

    /// Notes a write.
    pub fn note_write(&mut self, spot: Spot)
        requires spot { IsSpot spot }
        requires room { has_room_for self.old spot ≡ true }
        ensures { Noted self.old self.new [] (spot ∷ []) }
    {
        match spot {
            Spot::Byte(at) if self.is_shared(spot) => self.note_shared_write(at),
            _ => self.note_own_write(spot),
        }
    }

    /// From here on what is written is written after the fork.
    pub fn at_fork(&mut self)
        ensures { self.new ≡ record self.old { forked = true } }
    {
        self.forked = true;
    }

    /// What was read before it was written, and each shared page that was touched.
    pub fn first(&self) -> &Places
        ensures { result.now ≡ self.now.first }
    {
        &self.first
    }

    /// What was written.
    pub fn wrote(&self) -> &Places
        ensures { result.now ≡ self.now.wrote }
    {
        &self.wrote
    }

    /// What was written after the fork.
    pub fn wrote_after_fork(&self) -> &Places
        ensures { result.now ≡ self.now.after_fork }
    {
        &self.after_fork
    }

    fn note_own_read(&mut self, spot: Spot)
        requires spot { IsSpot spot }
        requires own { is_shared_in (shared_by self.old.classes) spot ≡ false }
        requires room { has_room self.old.first spot ≡ true }
        ensures { Noted self.old self.new (spot ∷ []) [] }
    {
        if !self.wrote.has(spot) {
            self.first.add(spot);
        }
    }

    fn note_shared_read(&mut self, at: u32)
        requires spot { IsSpot (AnySpot.Byte at) }
        requires shared { is_shared_in (shared_by self.old.classes) (AnySpot.Byte at) ≡ true }
        ensures { Noted self.old self.new (AnySpot.Byte at ∷ []) [] }
    {
        self.first.add_page(at);
    }

    fn note_own_write(&mut self, spot: Spot)
        requires spot { IsSpot spot }
        requires own { is_shared_in (shared_by self.old.classes) spot ≡ false }
        requires room { has_room_for self.old spot ≡ true }
        ensures { Noted self.old self.new [] (spot ∷ []) }
    {
        self.wrote.add(spot);
        if self.forked {
            self.after_fork.add(spot);
        }
    }

    fn note_shared_write(&mut self, at: u32)
        requires spot { IsSpot (AnySpot.Byte at) }
        requires shared { is_shared_in (shared_by self.old.classes) (AnySpot.Byte at) ≡ true }
        ensures { Noted self.old self.new [] (AnySpot.Byte at ∷ []) }
    {
        self.first.add_page(at);
        self.wrote.add_page(at);
        if self.forked {
            self.after_fork.add_page(at);
        }
    }

    fn is_shared(&self, spot: Spot) -> bool
        requires { IsSpot spot }
        ensures { result ≡ is_shared_in (shared_by self.now.classes) spot }
    {
        match spot {
            Spot::Byte(at) => {
                matches!(
                    self.classes.class((at - DATA_FROM) / PAGE_BYTES),
                    Class::Shared
                )
            }
            Spot::Register(_) | Spot::Cursor => false,
        }
    }
}
