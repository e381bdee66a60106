//! Where the objects of a text stand.
#![tactic(auto)]

mod fault;
mod frame;
mod globals;
mod laws;
mod layout;
mod limits;
mod next;
mod sizes;
mod slots;

pub use fault::LayoutFault;
pub use frame::Frame;
pub use laws::{erased_text_has_the_same_layout, frame_in_numbers};
pub use layout::{Layout, lay_out, layout_of};
