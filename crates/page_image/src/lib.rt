//! Data and stack.
#![tactic(auto)]

mod image;

pub use image::Image;
