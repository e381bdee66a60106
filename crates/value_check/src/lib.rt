//! Where two images differ.
#![tactic(auto)]

mod difference;

pub use difference::{Difference, first_differing};
