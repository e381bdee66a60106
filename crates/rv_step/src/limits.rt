//! The limits of jobs.

/// How many bytes an input has at most.
pub const INPUT_BYTES: usize = 16_777_216;

/// How many steps a run takes at most.
pub const BUDGET_LIMIT: u64 = 1_000_000_000_000;

/// How many tasks a group has at most.
pub const GROUP_LIMIT: u32 = 16;
