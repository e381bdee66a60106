//! What programs mean.

use crate::output::Output;
use c_tree::{Place, Undefined};

/// What a program means within some steps, with what it has put out.
#[derive(Debug, Drop)]
pub enum Meant {
    /// `main` has ended with this value.
    Done(Output, i32),
    /// A call found no room on the stack.
    StackFull(Output),
    /// The steps are used up.
    More(Output),
    /// An act is undefined at this place.
    Undefined(Output, Undefined, Place),
}
