//! Limits that no layout comes to. What is computed of a tree stops there, so that no sum overflows.

/// More than any address, and more than the size of any object that has one.
pub(crate) const FAR: u32 = 8_388_608;

/// More slots than a frame has.
pub(crate) const MANY: u32 = 16_385;

/// More bytes than a frame has: those of so many slots.
pub(crate) const WIDE: u32 = 65_540;

/// The most bytes of a frame.
pub(crate) const FRAME_BYTES: u32 = 65_536;
