//! The bytes in sets of bytes.

ghost use Rattle.std.specs.Prelude.{◌≡◌, ◌<◌, ◌==◌, ◌&&◌, ◌||◌, ◌↔◌, ℕ, true, false, not, IfOk, OnOk, OnErr, IsTrue};
ghost use Rattle.access_log.specs.MaskedPages.{mask_of, is_place_in, is_there, has_place, has_mask, HasSome};
ghost use Rattle.bop_bits.specs.declared.map.TheConstants.{PAGES, PAGE_BYTES};

use crate::masks::PageMasks;
use bop_bits::{BitSet, ByteMask, PAGES};
use bop_ends::OutOfMemory;
use std::alloc::Global;

impl PageMasks {
    /// No bytes, and no room.
    pub fn new(alloc: Global) -> Result<PageMasks, OutOfMemory>
        ensures bytes { IfOk result (λ masks. (p q : ℕ) → has_place masks p q ≡ false) }
    {
        let mut masks = Vec::new(alloc);
        for _ in 0..PAGES {
            masks.push(None)?;
        }
        Ok(PageMasks { alloc, masks })
    }

    /// Whether a page's byte is in its set.
    pub fn has(&self, page: u32, place: u32) -> bool
        requires page { page < PAGES }
        requires place { place < PAGE_BYTES }
        ensures { result ≡ has_place self.now page place }
    {
        match &self.masks[page as usize] {
            Some(mask) => mask.has(place),
            None => false,
        }
    }

    /// Makes room for the bytes of a page.
    pub fn room(&mut self, page: u32) -> Result<(), OutOfMemory>
        requires { page < PAGES }
        ensures bytes { (p q : ℕ) → has_place self.new p q ≡ has_place self.old p q }
        ensures room { OnOk result ((p : ℕ) → has_mask self.new p
            ≡ (has_mask self.old p || (p == page))) }
        ensures unchanged { OnErr result (self.new ≡ self.old) }
    {
        let page = page as usize;
        if self.masks[page].is_some() {
            return Ok(());
        }
        let mask = Box::new(self.alloc, BitSet::new())?;
        self.masks[page] = Some(mask);
        Ok(())
    }

    /// Adds a page's byte, which has room.
    pub fn add(&mut self, page: u32, place: u32)
        requires page { page < PAGES }
        requires place { place < PAGE_BYTES }
        requires room { has_mask self.old page ≡ true }
        ensures bytes { (p q : ℕ) → has_place self.new p q
            ≡ (has_place self.old p q || ((p == page) && (q == place))) }
        ensures room { (p : ℕ) → has_mask self.new p ≡ has_mask self.old p }
    {
        add_place(&mut self.masks[page as usize], place);
    }
    /// No bytes, with room for all.
    pub fn roomy(alloc: Global) -> Result<PageMasks, OutOfMemory>
        ensures bytes { IfOk result (λ masks. (p q : ℕ) → has_place masks p q ≡ false) }
        ensures room { IfOk result (λ masks. (p : ℕ) → p < PAGES → has_mask masks p ≡ true) }
    {
        let mut masks = PageMasks::new(alloc)?;
        for page in 0..PAGES {
            masks.room(page)?;
        }
        Ok(masks)
    }

    /// Whether some byte of a page is in its set.
    pub fn has_some(&self, page: u32) -> bool
        requires { page < PAGES }
        ensures { IsTrue result ↔ HasSome self.now page }
    {
        match &self.masks[page as usize] {
            Some(mask) => mask.meets(mask),
            None => false,
        }
    }

    /// Takes out all bytes. The room stays.
    pub fn clear(&mut self)
        ensures bytes { (p q : ℕ) → has_place self.new p q ≡ false }
        ensures room { (p : ℕ) → has_mask self.new p ≡ has_mask self.old p }
    {
        for page in 0..PAGES as usize {
            clear_mask(&mut self.masks[page]);
        }
    }

    /// Adds the bytes of other sets, where there is room for all.
    pub fn union_with(&mut self, other: &PageMasks)
        requires { (p : ℕ) → p < PAGES → has_mask self.old p ≡ true }
        ensures bytes { (p q : ℕ) → has_place self.new p q
            ≡ (has_place self.old p q || has_place other.now p q) }
        ensures room { (p : ℕ) → has_mask self.new p ≡ has_mask self.old p }
    {
        for page in 0..PAGES as usize {
            unite(&mut self.masks[page], &other.masks[page]);
        }
    }

    /// Takes out the bytes of other sets.
    pub fn difference_with(&mut self, other: &PageMasks)
        ensures bytes { (p q : ℕ) → has_place self.new p q
            ≡ (has_place self.old p q && not (has_place other.now p q)) }
        ensures room { (p : ℕ) → has_mask self.new p ≡ has_mask self.old p }
    {
        for page in 0..PAGES as usize {
            subtract(&mut self.masks[page], &other.masks[page]);
        }
    }
}

fn add_place(mask: &mut Option<Box<ByteMask>>, place: u32)
    requires place { place < PAGE_BYTES }
    ensures bytes { is_there mask.old ≡ true → (q : ℕ) → is_place_in mask.new q
        ≡ (is_place_in mask.old q || (q == place)) }
    ensures room { is_there mask.new ≡ is_there mask.old }
{
    if let Some(mask) = mask {
        mask.set(place);
    }
}

fn clear_mask(mask: &mut Option<Box<ByteMask>>)
    ensures bytes { (q : ℕ) → is_place_in mask.new q ≡ false }
    ensures room { is_there mask.new ≡ is_there mask.old }
{
    if let Some(mask) = mask {
        **mask = BitSet::new();
    }
}

fn unite(mask: &mut Option<Box<ByteMask>>, other: &Option<Box<ByteMask>>)
    requires { is_there mask.old ≡ true }
    ensures bytes { (q : ℕ) → is_place_in mask.new q
        ≡ (is_place_in mask.old q || is_place_in other.now q) }
    ensures room { is_there mask.new ≡ is_there mask.old }
{
    if let (Some(mask), Some(other)) = (mask, other) {
        mask.union_with(other);
    }
}

fn subtract(mask: &mut Option<Box<ByteMask>>, other: &Option<Box<ByteMask>>)
    ensures bytes { (q : ℕ) → is_place_in mask.new q
        ≡ (is_place_in mask.old q && not (is_place_in other.now q)) }
    ensures room { is_there mask.new ≡ is_there mask.old }
{
    if let (Some(mask), Some(other)) = (mask, other) {
        mask.difference_with(other);
    }
}
