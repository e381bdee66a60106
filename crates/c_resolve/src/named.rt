//! What names stand for.

use c_semantics::Home;
use c_tree::CType;

/// What a name stands for.
#[derive(Debug, Drop)]
pub enum Named {
    /// A variable, with where it stands.
    Variable(CType, Home),
    /// A function by its result and its parameters' types, and the number of its definition in the order of the text.
    Routine(CType, Vec<CType>, Option<u32>),
}
