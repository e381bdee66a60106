//! Names, types and offsets are worked out once, before anything is evaluated.
#![tactic(auto)]

mod action;
mod callee;
mod declaration;
mod expression;
mod function;
mod kinds;
mod named;
mod names;
mod node;
mod numbers;
mod part;
mod places;
mod routine;
mod statement;
mod text;
mod typed;

pub use action::{Action, Beginning, Begun, Passed};
pub use callee::{parameters, value_type};
pub use declaration::{declared_type, first_count, has_init};
pub use function::is_main;
pub use kinds::{held_by, held_of, operand_by, size};
pub use named::Named;
pub use names::Names;
pub use node::{Node, NodeKind, Target};
pub use numbers::{Numbers, number_all};
pub use part::{index_type, unary_type};
pub use places::{first_place, past};
pub use routine::{Parameter, Routine, Routines};
pub use text::{global_addresses, resolve_text, text_names};
