//! The rules that add a level.

#[derive(Clone, Copy)]
pub(crate) enum Rule {
    Assign,
    Cond,
    Unary,
}
