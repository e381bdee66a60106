//! The call that the program makes: what its words ask for is done over the ends that it is handed.
#![tactic(auto)]

mod ending;
mod input;
mod meaning;
mod outcome;
mod report;
mod run;
mod sequential;
mod status;
mod top;

pub use status::Status;
pub use top::{bop_main, bop_plain};

#[cfg(test)]
mod tests;
