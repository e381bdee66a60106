//! Statements, functions and whole texts become code: the code of each, and that it does what they
//! mean.
#![tactic(auto)]

mod count;
mod declaration;
mod frame_code;
mod function;
mod laws;
mod marker;
mod plain;
mod statement;
mod targets;
mod test;

pub use count::{MOST_PARTS, has_few_parts};
pub use function::lower_fun;
pub use laws::{
    a_runnable_text_is_ready, a_text_does_what_it_means, an_accepted_text_defines_once,
    an_accepted_text_is_ready, closed_code_of_a_text, code_does_what_the_function_means,
    code_does_what_the_statement_means, each_part_has_few_words,
};
