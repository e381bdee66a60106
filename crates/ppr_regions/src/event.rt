//! Events of a run.

/// A call of the machine that speaks of regions or hints, with its arguments.
#[derive(Clone, Copy, Debug, PartialEq, Eq)]
pub enum Event {
    Begin(u32),
    End(u32),
    Post { channel: u32, at: u32, len: u32 },
    Wait { channel: u32 },
}
