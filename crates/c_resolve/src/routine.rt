//! Functions whose names, types and offsets are worked out.

use crate::action::Action;
use c_semantics::{Held, Local};
use c_tree::Place;

/// A parameter: its offset, what it holds, and its place.
#[derive(Clone, Copy, Debug)]
pub struct Parameter {
    pub offset: u32,
    pub held: Held,
    pub place: Place,
}

/// A function that the text defines.
#[derive(Debug, Drop)]
pub struct Routine {
    /// How many bytes its frame has.
    pub frame: u32,
    pub parameters: Vec<Parameter>,
    /// The parameters and the locals of the body itself.
    pub locals: Vec<Local>,
    pub body: Vec<Action>,
    /// Whether it is `main`, whose end gives 0.
    pub is_main: bool,
}

/// The functions that a text defines, in its order, and the number of `main`, where it is one of them.
#[derive(Debug, Drop)]
pub struct Routines {
    pub all: Vec<Routine>,
    pub main: Option<u32>,
}
