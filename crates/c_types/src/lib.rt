//! Types of expressions, values of constants, and the names in scope with their types.
#![tactic(auto)]

mod call;
mod constants;
mod declarators;
mod env;
mod fault;
mod laws;
mod types;
mod typing;

pub use c_rules::convert;
pub use call::{Parameters, Passed, Target};
pub use constants::{Evaluation, evaluate};
pub use declarators::{array_of, parameter_type, parameter_types, pointer_to, value_of};
pub use env::{Env, Known};
pub use fault::TypeFault;
pub use laws::{a_rule_is_broken_where_no_types_would_meet_it, the_type_is_what_the_rules_derive};
pub use types::{constant, promote, type_of};
pub use typing::{address_of, is_nought, is_place, is_test, may_test, walk, where_right};
