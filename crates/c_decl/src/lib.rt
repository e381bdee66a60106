//! Declarations, statements and whole texts of the grammar.
#![tactic(auto)]

mod declarator;
mod expression;
mod item;
mod laws;
mod marker;
mod node;
mod opening;
mod parameter;
mod reserved;
mod statement;
mod unit;

pub use laws::{one_answer_of_a_text, one_tree_of_a_text, reserved_words_in_bytes};
pub use unit::parse;
