//! The registers that code uses, by the names of the calling convention.

/// It reads as 0.
pub const X0: u8 = 0;

/// The address that a call returns to.
pub const RA: u8 = 1;

/// The stack pointer.
pub const SP: u8 = 2;

/// The value of a node, or its left operand.
pub const T0: u8 = 5;

/// The right operand.
pub(crate) const T1: u8 = 6;

/// The address of an object or of a slot.
pub const T2: u8 = 7;

/// The size of what a pointer points to.
pub(crate) const T3: u8 = 28;

/// A value before its object changes.
pub(crate) const T4: u8 = 29;

/// The first argument, and the value that is returned.
pub const A0: u8 = 10;

/// The number of a call of the machine.
pub(crate) const A7: u8 = 17;
