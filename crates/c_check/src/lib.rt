//! Trees checked against the rules of the language.
#![tactic(auto)]

mod checker;
mod declarator;
mod defined;
mod edge;
mod fault;
mod function;
mod initialiser;
mod main_function;
mod marker;
mod region;
mod sizes;
mod statement;
mod text;

pub use fault::{CheckFault, CheckKind};
pub use text::check;
