//! Levels of nesting.

/// How many levels a token may have: 0 to 200.
pub const LEVELS: u32 = 201;
