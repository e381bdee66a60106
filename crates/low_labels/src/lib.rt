//! Code whose jumps and branches lead to labels: operations are added one behind the other, and
//! the words come when each label has its place.
#![tactic(auto)]

mod asm;
mod fault;
mod label;
mod laws;
mod line;
mod test;

pub use asm::Asm;
pub use fault::AsmFault;
pub use label::Label;
pub use laws::{closed_code_has_its_operations, labels_may_come_first};
pub use test::Test;
