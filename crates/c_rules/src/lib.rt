//! Types as they are seen in a tree, the typing rules on them, arithmetic on words, and the operands that are followed.
#![tactic(auto)]

mod integers;
mod least;
mod rules;
mod seen;
mod spine;
mod words;

pub use integers::{Integer, binary_type, binary_value, is_ready, is_unsigned_act, needs_second};
pub use least::{none_found, note};
pub use rules::{PartRule, Rule, index_result, is_taken, may_take};
pub use seen::{Base, Seen, is_void, same_type};
pub use spine::{Along, LIMIT, Lowest, descend, follow, is_arithmetic, is_integer, operand};
pub use words::{binary_word, convert, unary_word};
