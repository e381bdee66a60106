//! What programs mean, as definitions with their laws; and the memory of a program, with the objects that live.
#![tactic(auto)]

mod bytes;
mod flow;
mod home;
mod kind;
mod laws;
mod live;
mod local;
mod memory;
mod object;

pub use flow::Flow;
pub use home::Home;
pub use kind::{Held, Operand};
pub use laws::{
    an_accepted_text_has_types, later_answer_stays, markers_mean_nothing, output_grows,
    wider_bounds_change_nothing,
};
pub use local::Local;
pub use memory::Memory;
pub use object::Object;
