//! The limits of what words can ask for, and what holds where they don't say.

/// How many digits a number has at most.
pub const NUMBER_DIGITS: usize = 13;

/// How many workers race at most.
pub const WORKERS_LIMIT: u32 = 16;

/// How many regions a made text has at most.
pub const REGIONS_LIMIT: u32 = 10_000;

/// How many workers race, where the words don't say.
pub const USUAL_WORKERS: u32 = 4;

/// How many tasks a group has at most, where the words don't say.
pub const USUAL_GROUP: u32 = 4;

/// How many steps a run takes at most, where the words don't say.
pub const USUAL_BUDGET: u64 = 1_000_000_000;
