//! From a text to a program.
#![tactic(auto)]

mod boot;
mod compiler;
mod data;
mod laws;
mod refused;
mod stages;
mod text;

pub use compiler::compile;
pub use laws::{a_program_does_what_is_meant, a_text_that_fits_is_ready, one_answer_of_a_text};
pub use refused::Refused;
pub use stages::{front, source};
