//! Undefined acts.

/// An act that the standard leaves undefined.
#[derive(Clone, Copy, Debug, PartialEq, Eq)]
pub enum Undefined {
    /// A signed result that doesn't fit.
    Overflow,
    /// A zero divisor.
    Divide,
    /// A shift by less than 0 or more than 31, or to the left of a negative int or with a result that doesn't fit.
    Shift,
    /// An access where no live object holds the whole range, or at an address that isn't aligned.
    Access,
    /// A read of a byte that wasn't written.
    Indeterminate,
    /// Arithmetic or ordering of pointers outside one object.
    Pointer,
    /// The value of a function that ended without one.
    NoValue,
}
