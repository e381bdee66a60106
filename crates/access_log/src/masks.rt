//! Sets of bytes, page by page.

ghost use Rattle.std.specs.Prelude.{◌≡◌, length};
ghost use Rattle.bop_bits.specs.declared.map.TheConstants.{PAGES};

use bop_bits::ByteMask;
use std::alloc::Global;

/// For each page the set of some of its bytes, or None, which has no room.
#[derive(Drop)]
pub struct PageMasks {
    pub(crate) alloc: Global,
    pub(crate) masks: Vec<Option<Box<ByteMask>>>,
    ghost whole: { length masks.items ≡ PAGES },
}
