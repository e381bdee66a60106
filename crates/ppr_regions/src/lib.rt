//! What a program says of its regions and hints, and the rule of regions.
#![tactic(auto)]

mod event;
mod region;

pub use event::Event;
pub use region::{Met, Region, meet};
