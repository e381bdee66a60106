//! What becomes of a value.

/// Whether the value of an expression is used (C11 6.8.3).
#[derive(Clone, Copy, Debug, PartialEq, Eq)]
pub enum Use {
    Value,
    Discarded,
}
