//! What a step answers.

use ppr_regions::Event;
use rv_code::Stop;

/// How a step went.
#[derive(Clone, Copy, Debug, PartialEq, Eq)]
pub enum Stepped {
    /// The machine goes on.
    Plain,
    /// It goes on, and has put out a byte.
    Put(u8),
    /// It goes on, and has spoken of a region or a hint.
    Marked(Event),
    /// It has stopped.
    Ended(Stop),
    /// No step was made: the image needs memory.
    NoMemory,
}
