//! Expressions of the grammar.
#![tactic(auto)]

mod answer;
mod bases;
mod cursor;
mod fault;
mod keyword;
mod laws;
mod level;
mod node;
mod opening;
mod parse;
pub mod punctuator;
mod rule;
mod spelled;

pub use answer::{parse_cond, parse_expr};
pub use bases::{is_base, parse_base};
pub use cursor::Cursor;
pub use fault::ParseFault;
pub use laws::{levels_in_numbers, one_answer, one_tree, signs_in_bytes, words_in_bytes};
pub use level::LEVELS;
pub use opening::begins;
