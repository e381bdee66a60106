//! Expressions whose names and types are worked out.

use c_semantics::{Held, Home, Operand};
use c_tree::{Binary, Place, Step, Unary};

/// What a call names.
#[derive(Clone, Copy, Debug, PartialEq, Eq)]
pub enum Target {
    /// A function that the text defines, by its number in the order of the text.
    Function(u32),
    Getchar,
    Putchar,
    /// A function that is never defined.
    Undefined,
}

/// An expression, with its place.
#[cycle(node)]
#[derive(Debug)]
pub struct Node {
    pub kind: NodeKind,
    pub place: Place,
}

/// First operands are dropped in a loop: a text can have some 64,000 of them, each within the one before.
impl Drop for Node {
    #[cycle(node)]
    fn drop(mut self) {
        'first: loop {
            let Node { kind, place: _ } = self;
            match kind {
                NodeKind::Constant(_) => return,
                NodeKind::Name(_, _) => return,
                NodeKind::Unary(_, _, _, first) => self = Box::into_inner(first),
                NodeKind::Step(_, _, _, first) => self = Box::into_inner(first),
                NodeKind::Cast(_, first) => self = Box::into_inner(first),
                NodeKind::Binary(_, _, _, first, _second) => self = Box::into_inner(first),
                NodeKind::Conditional(first, _second, _third) => self = Box::into_inner(first),
                NodeKind::Assign(_, _, _, _, first, _second) => self = Box::into_inner(first),
                NodeKind::Index(_, _, _, first, _second) => self = Box::into_inner(first),
                NodeKind::Call(_, _arguments) => return,
            }
        }
    }
}

/// What an expression is. An operand's kind goes with each, and what the node itself holds where it is an object.
#[cycle(node)]
#[derive(Debug, Drop)]
pub enum NodeKind {
    Constant(u32),
    Name(Home, Held),
    Unary(Unary, Operand, Held, Box<Node>),
    Step(Step, Operand, Held, Box<Node>),
    /// A cast, to a char or to a type of 32 bits.
    Cast(Held, Box<Node>),
    Binary(Binary, Operand, Operand, Box<Node>, Box<Node>),
    Conditional(Box<Node>, Box<Node>, Box<Node>),
    /// An assignment, with what its left side holds.
    Assign(Option<Binary>, Operand, Operand, Held, Box<Node>, Box<Node>),
    Index(Operand, Operand, Held, Box<Node>, Box<Node>),
    Call(Target, Vec<Node>),
}
