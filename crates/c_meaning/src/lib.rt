//! The meaning of a program.
#![tactic(auto)]

mod evaluation;
mod halt;
mod machine;
mod meaning;
mod meant;
mod output;
mod pending;
mod planning;
mod turning;

pub use machine::starting::first_bytes;
pub use meaning::evaluate;
pub use meant::Meant;
pub use output::Output;
