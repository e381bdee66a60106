//! Whether what a task has seen is what is true.
#![tactic(auto)]

mod bytes;
mod conflict;
mod first_conflict;
mod pages;
mod registers;

pub use conflict::Conflict;
pub use first_conflict::verdict;
