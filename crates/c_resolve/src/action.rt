//! Statements whose names, types and offsets are worked out.

use crate::node::Node;
use c_semantics::{Held, Local};
use c_tree::Place;

/// What a declarator does as it is passed.
#[derive(Debug, Drop)]
pub enum Begun {
    /// Its object isn't written any more.
    Blank,
    /// Its object takes a value.
    Set(Held, Node),
    /// A list in braces, which no local takes.
    Nothing,
}

/// A declarator of a local, with the place of its name.
#[derive(Debug, Drop)]
pub struct Passed {
    pub local: Local,
    pub begun: Begun,
    pub place: Place,
}

/// What a `for` begins with.
#[derive(Debug, Drop)]
pub enum Beginning {
    Nothing,
    Vars(Vec<Passed>),
    Expr(Node),
}

/// A statement.
#[cycle(action)]
#[derive(Debug, Drop)]
pub enum Action {
    Empty,
    Expr(Node),
    /// A declaration, and whether it counts as a step.
    Vars(bool, Vec<Passed>),
    /// A block, with its own locals.
    Block(Vec<Local>, Vec<Action>),
    If(Node, Box<Action>, Option<Box<Action>>),
    While(Node, Box<Action>),
    Do(Box<Action>, Node),
    /// A `for`, with the locals that it declares itself.
    For(Vec<Local>, Beginning, Option<Node>, Option<Node>, Box<Action>),
    /// A `return`, with what the function's result holds.
    Return(Held, Option<Node>),
    Break,
    Continue,
}
