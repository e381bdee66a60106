//! Sets of places.

ghost use Rattle.std.specs.Prelude.{◌≡◌, ◌<◌, ◌||◌, ◌↔◌, true, false, IfOk, OnOk, OnErr, IsTrue};
ghost use Rattle.access_log.specs.Held.{has, has_room, HasSomeOf, IsRoomy};
ghost use Rattle.access_log.specs.Things.{IsSpot, one_page, same};
ghost use Rattle.access_log.specs.declared.spot.Spot.{Spot as AnySpot};
ghost use Rattle.bop_bits.specs.BitSets.{is_in};
ghost use Rattle.bop_bits.specs.Pages.{page_of, place_of};
ghost use Rattle.bop_bits.specs.declared.map.TheConstants.{PAGES, PAGE_BYTES};

use crate::masks::PageMasks;
use crate::spot::Spot;
use bop_bits::{BitSet, DATA_FROM, PAGE_BYTES, PageSet};
use bop_ends::OutOfMemory;
use std::alloc::Global;

/// Registers, the cursor, whole pages, and bytes of further pages.
#[derive(Drop)]
pub struct Places {
    pub(crate) registers: BitSet<1>,
    pub(crate) cursor: bool,
    pub(crate) pages: PageSet,
    pub(crate) bytes: PageMasks,
}

impl Places {
    /// No places, and no room for bytes.
    pub fn new(alloc: Global) -> Result<Places, OutOfMemory>
        ensures { IfOk result (λ places. (x : AnySpot) → IsSpot x → has places x ≡ false) }
    {
        Ok(Places {
            registers: BitSet::new(),
            cursor: false,
            pages: BitSet::new(),
            bytes: PageMasks::new(alloc)?,
        })
    }

    /// No places, with room for all.
    pub fn roomy(alloc: Global) -> Result<Places, OutOfMemory>
        ensures holds { IfOk result (λ places. (x : AnySpot) → IsSpot x → has places x ≡ false) }
        ensures room { IfOk result (λ places. IsRoomy places) }
    {
        Ok(Places {
            registers: BitSet::new(),
            cursor: false,
            pages: BitSet::new(),
            bytes: PageMasks::roomy(alloc)?,
        })
    }

    /// Takes out all places. The room stays.
    pub fn clear(&mut self)
        ensures holds { (x : AnySpot) → IsSpot x → has self.new x ≡ false }
        ensures room { (x : AnySpot) → has_room self.new x ≡ has_room self.old x }
    {
        self.registers = BitSet::new();
        self.cursor = false;
        self.pages = BitSet::new();
        self.bytes.clear();
    }

    /// Whether a spot is in the set, a byte by itself or with its whole page.
    pub fn has(&self, spot: Spot) -> bool
        requires { IsSpot spot }
        ensures { result ≡ has self.now spot }
    {
        match spot {
            Spot::Register(r) => self.registers.has(u32::from(r)),
            Spot::Cursor => self.cursor,
            Spot::Byte(at) => {
                let (page, place) = split(at);
                self.pages.has(page) || self.bytes.has(page, place)
            }
        }
    }

    /// Whether a whole page is in the set.
    pub fn has_page(&self, page: u32) -> bool
        requires { page < PAGES }
        ensures { result ≡ is_in self.now.pages.words page }
    {
        self.pages.has(page)
    }

    /// Whether some byte of a page is in the set, or the whole page.
    pub fn touches(&self, page: u32) -> bool
        requires { page < PAGES }
        ensures { IsTrue result ↔ HasSomeOf self.now page }
    {
        self.pages.has(page) || self.bytes.has_some(page)
    }

    /// Makes room for the bytes of a spot's page.
    pub fn room(&mut self, spot: Spot) -> Result<(), OutOfMemory>
        requires { IsSpot spot }
        ensures holds { (x : AnySpot) → has self.new x ≡ has self.old x }
        ensures more { (x : AnySpot) → has_room self.old x ≡ true → has_room self.new x ≡ true }
        ensures room { OnOk result (has_room self.new spot ≡ true) }
        ensures unchanged { OnErr result (self.new ≡ self.old) }
    {
        match spot {
            Spot::Byte(at) => {
                let (page, _) = split(at);
                self.bytes.room(page)
            }
            Spot::Register(_) | Spot::Cursor => Ok(()),
        }
    }

    /// Adds a spot.
    pub fn add(&mut self, spot: Spot)
        requires spot { IsSpot spot }
        requires room { has_room self.old spot ≡ true }
        ensures holds { (x : AnySpot) → IsSpot x → has self.new x
            ≡ (has self.old x || same x spot) }
        ensures room { (x : AnySpot) → has_room self.new x ≡ has_room self.old x }
    {
        match spot {
            Spot::Register(r) => {
                if r != 0 {
                    self.registers.set(u32::from(r));
                }
            }
            Spot::Cursor => self.cursor = true,
            Spot::Byte(at) => {
                let (page, place) = split(at);
                self.bytes.add(page, place);
            }
        }
    }

    /// Adds the whole page of a byte.
    pub fn add_page(&mut self, at: u32)
        requires { IsSpot (AnySpot.Byte at) }
        ensures holds { (x : AnySpot) → IsSpot x → has self.new x
            ≡ (has self.old x || one_page x (AnySpot.Byte at)) }
        ensures room { (x : AnySpot) → has_room self.new x ≡ has_room self.old x }
    {
        let (page, _) = split(at);
        self.pages.set(page);
    }
}

/// The page of an address, and its place in it.
fn split(at: u32) -> (u32, u32)
    requires { IsSpot (AnySpot.Byte at) }
    ensures page { result.0 ≡ page_of at }
    ensures place { result.1 ≡ place_of at }
    ensures in_range { result.0 < PAGES }
    ensures in_page { result.1 < PAGE_BYTES }
{
    let at = at - DATA_FROM;
    (at / PAGE_BYTES, at % PAGE_BYTES)
}
