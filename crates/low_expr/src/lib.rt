//! Expressions become code: the code of each, and that it does what the expression means.
#![tactic(auto)]

mod above;
mod call;
mod expression;
mod finish;
mod laws;
mod names;
mod operators;
mod piece;
mod primary;
mod register;
mod wanted;

pub use call::call_machine;
pub use expression::lower_expr;
pub use finish::add_nothing;
pub use laws::{
    an_evaluable_expression_is_ready, code_does_what_the_expression_means, each_node_has_few_words,
};
pub use names::{Names, Site};
pub use operators::add_cast;
pub use piece::{
    SLOTS, add, load_constant, load_frame_address, load_home, load_slot, narrow, read, write,
};
pub use register::{A0, RA, SP, T0, T2, X0};
