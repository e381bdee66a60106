//! Expressions that are resolved.

use crate::node::Node;
use c_rules::Seen;

/// What an expression does, and its type where it has one.
#[derive(Debug, Drop)]
pub struct Typed<'a> {
    pub node: Node,
    pub ty: Option<Seen<'a>>,
}
