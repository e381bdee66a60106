//! Expressions, statements and declarations.

use crate::ctype::CType;
use crate::name::Name;
use crate::operator::{Binary, Keep, Step, Unary};
use crate::place::Place;

/// What a call names.
#[derive(Debug, Drop)]
pub enum Callee {
    Name(Name),
    Getchar,
    Putchar,
}

/// An expression, with its place.
#[cycle(expr)]
#[derive(Debug)]
pub struct Expr {
    pub kind: ExprKind,
    pub place: Place,
}

/// First operands are dropped in a loop: a text can have some 64,000 of them, each within the one before.
impl Drop for Expr {
    #[cycle(expr)]
    fn drop(mut self) {
        'first: loop {
            let Expr { kind, place: _ } = self;
            match kind {
                ExprKind::Name(_name) => return,
                ExprKind::Number(_ty, _) => return,
                ExprKind::Character(_) => return,
                ExprKind::Eof => return,
                ExprKind::Unary(_, first) => self = Box::into_inner(first),
                ExprKind::Step(_, first) => self = Box::into_inner(first),
                ExprKind::Cast(_ty, first) => self = Box::into_inner(first),
                ExprKind::Binary(_, first, _second) => self = Box::into_inner(first),
                ExprKind::Conditional(first, _second, _third) => self = Box::into_inner(first),
                ExprKind::Assign(_, first, _second) => self = Box::into_inner(first),
                ExprKind::Index(first, _second) => self = Box::into_inner(first),
                ExprKind::Call(_callee, _arguments) => return,
            }
        }
    }
}

/// What an expression is.
#[cycle(expr)]
#[derive(Debug, Drop)]
pub enum ExprKind {
    Name(Name),
    Number(CType, u32),
    Character(u32),
    /// The name `EOF`.
    Eof,
    Unary(Unary, Box<Expr>),
    Step(Step, Box<Expr>),
    Cast(CType, Box<Expr>),
    Binary(Binary, Box<Expr>, Box<Expr>),
    Conditional(Box<Expr>, Box<Expr>, Box<Expr>),
    /// `=` with no operator, else the compound assignment of that operator.
    Assign(Option<Binary>, Box<Expr>, Box<Expr>),
    Index(Box<Expr>, Box<Expr>),
    Call(Callee, Vec<Expr>),
}

/// What a variable is initialised with: an expression, or a list in braces.
#[derive(Debug, Drop)]
pub enum Init {
    One(Expr),
    Many(Vec<Expr>),
}

/// A declarator of a variable, with the type that its declaration begins with.
#[derive(Debug, Drop)]
pub struct Var {
    pub base: CType,
    /// The number of `*` before the name.
    pub stars: u32,
    pub name: Name,
    /// The place of the name.
    pub place: Place,
    /// The numbers of elements, the outermost array's first.
    pub sizes: Vec<Expr>,
    pub init: Option<Init>,
}

/// How many bytes a post sends: a number, or what a variable holds, with the place of its name.
#[derive(Debug, Drop)]
pub enum Count {
    Number(u32),
    Name(Name, Place),
}

/// A marker, with its number.
#[derive(Debug, Drop)]
pub enum Marker {
    Begin(u32),
    End(u32),
    Wait(u32),
    /// A channel, the array or pointer whose bytes are sent, the place of its name, and how many bytes.
    Post(u32, Name, Place, Count),
}

/// What a `for` begins with.
#[derive(Debug, Drop)]
pub enum First {
    Nothing,
    Vars(Vec<Var>),
    Expr(Expr),
}

/// A statement, with the place of its first token.
#[cycle(stmt)]
#[derive(Debug, Drop)]
pub struct Stmt {
    pub kind: StmtKind,
    pub place: Place,
}

/// What a statement is.
#[cycle(stmt)]
#[derive(Debug, Drop)]
pub enum StmtKind {
    Empty,
    Expr(Expr),
    Vars(Vec<Var>),
    Block(Vec<Stmt>),
    Marker(Marker),
    If(Expr, Box<Stmt>, Option<Box<Stmt>>),
    While(Expr, Box<Stmt>),
    Do(Box<Stmt>, Expr),
    For(First, Option<Expr>, Option<Expr>, Box<Stmt>),
    Return(Option<Expr>),
    Break,
    Continue,
}

/// A parameter of a function. The name may be left out where the function has no body.
#[derive(Debug, Drop)]
pub struct Param {
    pub base: CType,
    /// The number of `*` before the name.
    pub stars: u32,
    pub name: Option<Name>,
    pub place: Place,
    /// Whether it is written as an array, with `[]` behind the name.
    pub array: bool,
}

/// A function: a definition, or with no body a declaration.
#[derive(Debug, Drop)]
pub struct Fun {
    pub base: CType,
    /// The number of `*` before the name.
    pub stars: u32,
    pub name: Name,
    /// The place of the name.
    pub place: Place,
    pub params: Vec<Param>,
    pub body: Option<Vec<Stmt>>,
}

/// An item of a text: global variables, or a function.
#[derive(Debug, Drop)]
pub enum Item {
    Vars(Keep, Vec<Var>),
    Fun(Fun),
}

/// A whole text.
#[derive(Debug, Drop)]
pub struct Tree {
    pub items: Vec<Item>,
}
