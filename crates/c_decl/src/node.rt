//! Statements, from their parts.

ghost use Rattle.std.specs.Prelude.{◌≡◌, map, option_map, IfOk};
ghost use Rattle.c_tree.specs.Stmt as stmt;
ghost use Rattle.c_tree.specs.View.{expr_of, var_of, stmt_of, stmts_of, first_of};

use c_tree::{Expr, First, Marker, OutOfMemory, Place, Stmt, StmtKind, Var};
use std::alloc::Global;

/// The empty statement.
pub(crate) fn build_empty(place: Place) -> Stmt
    ensures { stmt_of result ≡ stmt.Empty place }
{
    let kind = StmtKind::Empty;
    Stmt { kind, place }
}

/// An expression statement.
pub(crate) fn build_expr(value: Expr, place: Place) -> Stmt
    ensures { stmt_of result ≡ stmt.Expr (expr_of value) place }
{
    let kind = StmtKind::Expr(value);
    Stmt { kind, place }
}

/// A declaration.
pub(crate) fn build_vars(vars: Vec<Var>, place: Place) -> Stmt
    ensures { stmt_of result ≡ stmt.Vars (map var_of vars.items) place }
{
    let kind = StmtKind::Vars(vars);
    Stmt { kind, place }
}

/// A block.
pub(crate) fn build_block(body: Vec<Stmt>, place: Place) -> Stmt
    ensures { stmt_of result ≡ stmt.Block (stmts_of body.items) place }
{
    let kind = StmtKind::Block(body);
    Stmt { kind, place }
}

/// A marker.
pub(crate) fn build_marker(marker: Marker, place: Place) -> Stmt
    ensures { stmt_of result ≡ stmt.Marker marker place }
{
    let kind = StmtKind::Marker(marker);
    Stmt { kind, place }
}

/// An `if` without `else`.
pub(crate) fn build_if(
    alloc: Global,
    test: Expr,
    then: Stmt,
    place: Place,
) -> Result<Stmt, OutOfMemory>
    ensures { IfOk result (λ s. stmt_of s
        ≡ stmt.If (expr_of test) (stmt_of then) stmt.NoElse place) }
{
    let kind = StmtKind::If(test, Box::new(alloc, then)?, None);
    Ok(Stmt { kind, place })
}

/// An `if` with its `else`.
pub(crate) fn build_if_else(
    alloc: Global,
    test: Expr,
    then: Stmt,
    other: Stmt,
    place: Place,
) -> Result<Stmt, OutOfMemory>
    ensures { IfOk result (λ s. stmt_of s
        ≡ stmt.If (expr_of test) (stmt_of then) (stmt.Else (stmt_of other)) place) }
{
    let then = Box::new(alloc, then)?;
    let other = Box::new(alloc, other)?;
    let kind = StmtKind::If(test, then, Some(other));
    Ok(Stmt { kind, place })
}

/// A `while`.
pub(crate) fn build_while(
    alloc: Global,
    test: Expr,
    body: Stmt,
    place: Place,
) -> Result<Stmt, OutOfMemory>
    ensures { IfOk result (λ s. stmt_of s ≡ stmt.While (expr_of test) (stmt_of body) place) }
{
    let kind = StmtKind::While(test, Box::new(alloc, body)?);
    Ok(Stmt { kind, place })
}

/// A `do`.
pub(crate) fn build_do(
    alloc: Global,
    body: Stmt,
    test: Expr,
    place: Place,
) -> Result<Stmt, OutOfMemory>
    ensures { IfOk result (λ s. stmt_of s ≡ stmt.Do (stmt_of body) (expr_of test) place) }
{
    let kind = StmtKind::Do(Box::new(alloc, body)?, test);
    Ok(Stmt { kind, place })
}

/// A `for`.
pub(crate) fn build_for(
    alloc: Global,
    first: First,
    test: Option<Expr>,
    step: Option<Expr>,
    body: Stmt,
    place: Place,
) -> Result<Stmt, OutOfMemory>
    ensures { IfOk result (λ s. stmt_of s
        ≡ stmt.For (first_of first) (option_map expr_of test) (option_map expr_of step)
        (stmt_of body) place) }
{
    let body = Box::new(alloc, body)?;
    let kind = StmtKind::For(first, test, step, body);
    Ok(Stmt { kind, place })
}

/// A `return`.
pub(crate) fn build_return(value: Option<Expr>, place: Place) -> Stmt
    ensures { stmt_of result ≡ stmt.Return (option_map expr_of value) place }
{
    let kind = StmtKind::Return(value);
    Stmt { kind, place }
}

/// A `break`.
pub(crate) fn build_break(place: Place) -> Stmt
    ensures { stmt_of result ≡ stmt.Break place }
{
    let kind = StmtKind::Break;
    Stmt { kind, place }
}

/// A `continue`.
pub(crate) fn build_continue(place: Place) -> Stmt
    ensures { stmt_of result ≡ stmt.Continue place }
{
    let kind = StmtKind::Continue;
    Stmt { kind, place }
}
