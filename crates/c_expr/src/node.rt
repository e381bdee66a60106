//! Nodes of expressions, from their parts.

ghost use Rattle.std.specs.Prelude.{◌≡◌, IfOk};
ghost use Rattle.c_tree.specs.Expr as expr;
ghost use Rattle.c_tree.specs.View.{ty_of, expr_of, exprs_of};

use c_tree::{Binary, CType, Callee, Expr, ExprKind, Name, OutOfMemory, Place, Step, Unary};
use std::alloc::Global;

/// A name.
pub(crate) fn build_name(name: Name, place: Place) -> Expr
    ensures { expr_of result ≡ expr.Name name place }
{
    let kind = ExprKind::Name(name);
    Expr { kind, place }
}

/// A constant of a type.
pub(crate) fn build_number(ty: CType, value: u32, place: Place) -> Expr
    ensures { expr_of result ≡ expr.Number (ty_of ty) value place }
{
    let kind = ExprKind::Number(ty, value);
    Expr { kind, place }
}

/// A character constant.
pub(crate) fn build_character(code: u32, place: Place) -> Expr
    ensures { expr_of result ≡ expr.Character code place }
{
    let kind = ExprKind::Character(code);
    Expr { kind, place }
}

/// The name `EOF`.
pub(crate) fn build_eof(place: Place) -> Expr
    ensures { expr_of result ≡ expr.Eof place }
{
    let kind = ExprKind::Eof;
    Expr { kind, place }
}

/// A call.
pub(crate) fn build_call(callee: Callee, arguments: Vec<Expr>, place: Place) -> Expr
    ensures { expr_of result ≡ expr.Call callee (exprs_of arguments.items) place }
{
    let kind = ExprKind::Call(callee, arguments);
    Expr { kind, place }
}

/// An operator before its operand.
pub(crate) fn build_unary(
    alloc: Global,
    op: Unary,
    of: Expr,
    place: Place,
) -> Result<Expr, OutOfMemory>
    ensures { IfOk result (λ e. expr_of e ≡ expr.Unary op (expr_of of) place) }
{
    let kind = ExprKind::Unary(op, Box::new(alloc, of)?);
    Ok(Expr { kind, place })
}

/// `++` or `--` with its operand.
pub(crate) fn build_step(
    alloc: Global,
    how: Step,
    of: Expr,
    place: Place,
) -> Result<Expr, OutOfMemory>
    ensures { IfOk result (λ e. expr_of e ≡ expr.Step how (expr_of of) place) }
{
    let kind = ExprKind::Step(how, Box::new(alloc, of)?);
    Ok(Expr { kind, place })
}

/// A cast.
pub(crate) fn build_cast(
    alloc: Global,
    to: CType,
    of: Expr,
    place: Place,
) -> Result<Expr, OutOfMemory>
    ensures { IfOk result (λ e. expr_of e ≡ expr.Cast (ty_of to) (expr_of of) place) }
{
    let kind = ExprKind::Cast(to, Box::new(alloc, of)?);
    Ok(Expr { kind, place })
}

/// An operator between its operands.
pub(crate) fn build_binary(
    alloc: Global,
    op: Binary,
    left: Expr,
    right: Expr,
    place: Place,
) -> Result<Expr, OutOfMemory>
    ensures { IfOk result (λ e. expr_of e ≡ expr.Binary op (expr_of left) (expr_of right) place) }
{
    let kind = ExprKind::Binary(op, Box::new(alloc, left)?, Box::new(alloc, right)?);
    Ok(Expr { kind, place })
}

/// A conditional expression.
pub(crate) fn build_conditional(
    alloc: Global,
    test: Expr,
    left: Expr,
    right: Expr,
    place: Place,
) -> Result<Expr, OutOfMemory>
    ensures { IfOk result (λ e. expr_of e
        ≡ expr.Conditional (expr_of test) (expr_of left) (expr_of right) place) }
{
    let kind = ExprKind::Conditional(
        Box::new(alloc, test)?,
        Box::new(alloc, left)?,
        Box::new(alloc, right)?,
    );
    Ok(Expr { kind, place })
}

/// An assignment.
pub(crate) fn build_assign(
    alloc: Global,
    how: Option<Binary>,
    left: Expr,
    right: Expr,
    place: Place,
) -> Result<Expr, OutOfMemory>
    ensures { IfOk result (λ e. expr_of e ≡ expr.Assign how (expr_of left) (expr_of right) place) }
{
    let kind = ExprKind::Assign(how, Box::new(alloc, left)?, Box::new(alloc, right)?);
    Ok(Expr { kind, place })
}

/// An element of an array.
pub(crate) fn build_index(
    alloc: Global,
    array: Expr,
    index: Expr,
    place: Place,
) -> Result<Expr, OutOfMemory>
    ensures { IfOk result (λ e. expr_of e ≡ expr.Index (expr_of array) (expr_of index) place) }
{
    let kind = ExprKind::Index(Box::new(alloc, array)?, Box::new(alloc, index)?);
    Ok(Expr { kind, place })
}
