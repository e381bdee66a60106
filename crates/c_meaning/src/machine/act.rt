//! What acts are made of.

use c_semantics::{Held, Operand};
use c_tree::{Binary, Place, Step};

/// An operator between two values: how they take part in arithmetic, and its place.
#[derive(Clone, Copy)]
pub(crate) struct BinaryAct {
    pub(crate) op: Binary,
    pub(crate) left: Operand,
    pub(crate) right: Operand,
    pub(crate) at: Place,
}

/// An object that is read and written: what it holds, and the place of the expression that stands for it.
#[derive(Clone, Copy)]
pub(crate) struct Lvalue {
    pub(crate) held: Held,
    pub(crate) place: Place,
}

/// An assignment: by which operator, where it has one, how its sides take part in arithmetic, what it writes, and its place.
#[derive(Clone, Copy)]
pub(crate) struct Assignment {
    pub(crate) how: Option<Binary>,
    pub(crate) left: Operand,
    pub(crate) right: Operand,
    pub(crate) to: Lvalue,
    pub(crate) at: Place,
}

/// `++` or `--`: how its operand takes part in arithmetic, what that is, and its place.
#[derive(Clone, Copy)]
pub(crate) struct Stepping {
    pub(crate) how: Step,
    pub(crate) operand: Operand,
    pub(crate) of: Lvalue,
    pub(crate) at: Place,
}
