//! Names in scope, with what they stand for, by the blocks that declare them.
#![tactic(auto)]

mod block;
mod index;
mod scope;

pub use scope::Scope;
