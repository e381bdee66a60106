//! What a book keeps of its events.
#![tactic(auto)]

mod entry;

pub use entry::Entry;
