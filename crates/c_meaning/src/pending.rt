//! What is still to be done of a program.

use crate::machine::act::{Assignment, BinaryAct, Stepping};
use c_resolve::{Action, Beginning, Node, Passed, Target};
use c_semantics::{Flow, Held, Home, Local, Operand};
use c_tree::{Binary, Place, Unary};

/// The parts of a loop.
#[derive(Clone, Copy)]
pub(crate) struct Loop<'a> {
    pub(crate) test: Option<&'a Node>,
    pub(crate) step: Option<&'a Node>,
    pub(crate) body: &'a Action,
}

/// What is wanted of an expression.
#[derive(Clone, Copy, Debug, PartialEq, Eq)]
pub(crate) enum Wanted {
    Value,
    Address,
    /// Only what it does.
    Nothing,
}

/// How far a loop is.
#[derive(Clone, Copy, Debug, PartialEq, Eq)]
pub(crate) enum Stage {
    /// It begins.
    Begins,
    /// It tests at most so often.
    Tests(u64),
    /// It has tested, and tests at most so often again.
    Turns(u64),
}

/// What is done where all before it ended normally. Operands are taken from the top of the values, and results put there.
#[derive(Clone, Copy)]
pub(crate) enum Task<'a> {
    Eval(Wanted, &'a Node),
    Constant(u32),
    /// The number 0, which takes no step.
    Zero,
    /// The address of a variable.
    Name(Home),
    Values(&'a [Node]),
    /// What an object at an address holds.
    Load(Held, Place),
    /// The step of a node that leaves its operand.
    Count,
    Unary(Unary, Operand, Place),
    Step(Stepping),
    Cast(Held),
    Binary(BinaryAct),
    /// The right operand of `&&` or `||`, where the left one doesn't decide.
    Logic(Binary, &'a Node),
    Truth,
    Conditional(&'a Node, &'a Node),
    Assign(Assignment),
    /// A call with so many arguments.
    Call(Target, usize),
    Ignore,
    Vars(&'a [Passed]),
    Var(&'a Passed),
    /// A local takes its first value.
    Init(Local, Held, Place),
    Execute(&'a Action),
    All(&'a [Action]),
    /// A block, with its own locals.
    Block(&'a [Local], &'a [Action]),
    /// A `for` that was entered, with the locals that it declares itself.
    For(&'a [Local], &'a Beginning, Loop<'a>),
    If(&'a Action, Option<&'a Action>),
    Loop(Stage, Loop<'a>),
    Return(Held),
    /// What was done ends so.
    End(Flow),
}

/// What takes an end of what was done before it, whatever that is.
#[derive(Clone, Copy)]
pub(crate) enum Edge<'a> {
    /// A call's value is used.
    Use(Place),
    /// A call's value isn't used.
    Forget,
    /// A loop has turned, and goes on so.
    Turned(Stage, Loop<'a>),
    /// A block ends, before which so many objects lived.
    Close(usize),
    /// A function ends, before which the stack pointer was this, and which may be `main`.
    Leave(u32, bool),
}

/// A piece of work.
#[derive(Clone, Copy)]
pub(crate) enum Work<'a> {
    Task(Task<'a>),
    Edge(Edge<'a>),
}

/// What is still to be done, the next piece last; the values at hand, the topmost last; how what was done last ended; and how deep calls may still nest.
#[derive(Drop)]
pub(crate) struct Pending<'a> {
    pub(crate) work: Vec<Work<'a>>,
    pub(crate) values: Vec<u32>,
    pub(crate) flow: Flow,
    pub(crate) depth: u64,
}
