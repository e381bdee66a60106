//! A text that is made of a seed and a number of regions.
#![tactic(auto)]

mod generator;

pub use generator::source_of;
