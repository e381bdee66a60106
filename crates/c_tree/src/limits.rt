//! Limits and fixed values of the language.

/// How many parameters a function has at most.
pub const MOST_PARAMETERS: usize = 8;

/// The numbers of regions are below this.
pub const REGIONS: u32 = 256;

/// The numbers of channels are below this.
pub const CHANNELS: u32 = 64;

/// The value of `EOF`, which `getchar` gives at the end of the input: -1 (C11 7.21.1).
pub const END_OF_FILE: u32 = 0xFFFF_FFFF;
