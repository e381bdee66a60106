//! What a process has first touched and written.
#![tactic(auto)]

mod changed;
mod log;
mod masking;
mod masks;
mod places;
mod spot;

pub use log::Log;
pub use masks::PageMasks;
pub use places::Places;
pub use spot::Spot;
