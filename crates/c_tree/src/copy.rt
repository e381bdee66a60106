//! Equal trees in memory of their own.

ghost use Rattle.std.specs.Prelude.{◌≡◌, None, map, option_map, IfOk};
ghost use Rattle.c_tree.specs.View.{expr_of, init_of, var_of, first_of, param_of};
ghost use Rattle.c_tree.specs.FirstOperand.{first_operand, with_first};

use crate::OutOfMemory;
use crate::spine::Spine;
use crate::tree::{Callee, Expr, ExprKind, First, Init, Param, Var};
use std::alloc::Global;

fn callee(alloc: Global, from: &Callee) -> Result<Callee, OutOfMemory>
    ensures { IfOk result (λ copy. copy ≡ from.now) }
{
    match from {
        Callee::Name(name) => Ok(Callee::Name(name.again(alloc)?)),
        Callee::Getchar => Ok(Callee::Getchar),
        Callee::Putchar => Ok(Callee::Putchar),
    }
}

#[cycle(expr)]
fn operand(alloc: Global, e: &Expr) -> Result<Box<Expr>, OutOfMemory>
    ensures { IfOk result (λ copy. expr_of copy.value ≡ expr_of e.now) }
{
    Ok(Box::new(alloc, expr(alloc, e)?)?)
}

/// An expression that has no first operand, again.
#[cycle(expr)]
fn end(alloc: Global, e: &Expr) -> Result<Expr, OutOfMemory>
    requires { first_operand (expr_of e.now) ≡ None }
    ensures { IfOk result (λ copy. expr_of copy ≡ expr_of e.now) }
{
    let place = e.place;
    match &e.kind {
        ExprKind::Name(name) => {
            let kind = ExprKind::Name(name.again(alloc)?);
            Ok(Expr { kind, place })
        }
        ExprKind::Number(ty, value) => {
            let kind = ExprKind::Number(ty.again(alloc)?, *value);
            Ok(Expr { kind, place })
        }
        ExprKind::Character(code) => {
            let kind = ExprKind::Character(*code);
            Ok(Expr { kind, place })
        }
        ExprKind::Eof => {
            let kind = ExprKind::Eof;
            Ok(Expr { kind, place })
        }
        ExprKind::Call(name, args) => {
            let name = callee(alloc, name)?;
            let kind = ExprKind::Call(name, exprs(alloc, args)?);
            Ok(Expr { kind, place })
        }
        _ => unreachable!(),
    }
}

/// An expression again, with another first operand.
#[cycle(expr)]
fn around(alloc: Global, e: &Expr, first: Expr) -> Result<Expr, OutOfMemory>
    ensures { IfOk result (λ copy. expr_of copy ≡ with_first (expr_of e.now) (expr_of first)) }
{
    let place = e.place;
    match &e.kind {
        ExprKind::Unary(op, _) => {
            let kind = ExprKind::Unary(*op, Box::new(alloc, first)?);
            Ok(Expr { kind, place })
        }
        ExprKind::Step(how, _) => {
            let kind = ExprKind::Step(*how, Box::new(alloc, first)?);
            Ok(Expr { kind, place })
        }
        ExprKind::Cast(to, _) => {
            let first = Box::new(alloc, first)?;
            let kind = ExprKind::Cast(to.again(alloc)?, first);
            Ok(Expr { kind, place })
        }
        ExprKind::Binary(op, _, b) => {
            let first = Box::new(alloc, first)?;
            let kind = ExprKind::Binary(*op, first, operand(alloc, b)?);
            Ok(Expr { kind, place })
        }
        ExprKind::Conditional(_, a, b) => {
            let first = Box::new(alloc, first)?;
            let a = operand(alloc, a)?;
            let kind = ExprKind::Conditional(first, a, operand(alloc, b)?);
            Ok(Expr { kind, place })
        }
        ExprKind::Assign(how, _, b) => {
            let first = Box::new(alloc, first)?;
            let kind = ExprKind::Assign(*how, first, operand(alloc, b)?);
            Ok(Expr { kind, place })
        }
        ExprKind::Index(_, b) => {
            let first = Box::new(alloc, first)?;
            let kind = ExprKind::Index(first, operand(alloc, b)?);
            Ok(Expr { kind, place })
        }
        _ => Ok(first),
    }
}

/// An equal expression. First operands are copied in a loop, since a text can have some 64,000 of them.
#[cycle(expr)]
pub(crate) fn expr(alloc: Global, e: &Expr) -> Result<Expr, OutOfMemory>
    ensures { IfOk result (λ copy. expr_of copy ≡ expr_of e.now) }
{
    let spine = Spine::of(alloc, e)?;
    let mut above = spine.above;
    let mut copy = end(alloc, spine.end)?;
    while let Some(next) = above.pop() {
        copy = around(alloc, next, copy)?;
    }
    Ok(copy)
}

#[cycle(expr)]
pub(crate) fn exprs(alloc: Global, list: &[Expr]) -> Result<Vec<Expr>, OutOfMemory>
    ensures { IfOk result (λ copy. map expr_of copy.items ≡ map expr_of list.now) }
{
    let mut copy = Vec::new(alloc);
    for e in list {
        copy.push(expr(alloc, e)?)?;
    }
    Ok(copy)
}

fn init(alloc: Global, from: &Init) -> Result<Init, OutOfMemory>
    ensures { IfOk result (λ copy. init_of copy ≡ init_of from.now) }
{
    match from {
        Init::One(e) => Ok(Init::One(expr(alloc, e)?)),
        Init::Many(list) => Ok(Init::Many(exprs(alloc, list)?)),
    }
}

fn optional_init(alloc: Global, from: &Option<Init>) -> Result<Option<Init>, OutOfMemory>
    ensures { IfOk result (λ copy. option_map init_of copy ≡ option_map init_of from.now) }
{
    match from {
        None => Ok(None),
        Some(from) => Ok(Some(init(alloc, from)?)),
    }
}

fn var(alloc: Global, from: &Var) -> Result<Var, OutOfMemory>
    ensures { IfOk result (λ copy. var_of copy ≡ var_of from.now) }
{
    let init = optional_init(alloc, &from.init)?;
    Ok(Var {
        base: from.base.again(alloc)?,
        stars: from.stars,
        name: from.name.again(alloc)?,
        place: from.place,
        sizes: exprs(alloc, &from.sizes)?,
        init,
    })
}

pub(crate) fn vars(alloc: Global, list: &[Var]) -> Result<Vec<Var>, OutOfMemory>
    ensures { IfOk result (λ copy. map var_of copy.items ≡ map var_of list.now) }
{
    let mut copy = Vec::new(alloc);
    for v in list {
        copy.push(var(alloc, v)?)?;
    }
    Ok(copy)
}

pub(crate) fn optional(alloc: Global, e: &Option<Expr>) -> Result<Option<Expr>, OutOfMemory>
    ensures { IfOk result (λ copy. option_map expr_of copy ≡ option_map expr_of e.now) }
{
    match e {
        None => Ok(None),
        Some(e) => Ok(Some(expr(alloc, e)?)),
    }
}

pub(crate) fn first(alloc: Global, from: &First) -> Result<First, OutOfMemory>
    ensures { IfOk result (λ copy. first_of copy ≡ first_of from.now) }
{
    match from {
        First::Nothing => Ok(First::Nothing),
        First::Vars(list) => Ok(First::Vars(vars(alloc, list)?)),
        First::Expr(e) => Ok(First::Expr(expr(alloc, e)?)),
    }
}

fn param(alloc: Global, from: &Param) -> Result<Param, OutOfMemory>
    ensures { IfOk result (λ copy. param_of copy ≡ param_of from.now) }
{
    let name = match &from.name {
        None => None,
        Some(name) => Some(name.again(alloc)?),
    };
    Ok(Param {
        base: from.base.again(alloc)?,
        stars: from.stars,
        name,
        place: from.place,
        array: from.array,
    })
}

pub(crate) fn params(alloc: Global, list: &[Param]) -> Result<Vec<Param>, OutOfMemory>
    ensures { IfOk result (λ copy. map param_of copy.items ≡ map param_of list.now) }
{
    let mut copy = Vec::new(alloc);
    for p in list {
        copy.push(param(alloc, p)?)?;
    }
    Ok(copy)
}
