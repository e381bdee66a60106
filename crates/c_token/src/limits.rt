//! Limits of texts.

/// How many bytes a text has at most.
pub const TEXT_BYTES: usize = 1_048_576;
