//! Expressions, where a cursor is.

ghost use Rattle.c_tree.specs.View.{expr_of};
ghost use Rattle.c_expr.specs.private.ParserRules.{Assign, Cond};
ghost use Rattle.c_expr.specs.private.ExpressionReading.{ruled};
ghost use Rattle.c_expr.specs.Reads.{Reads};

use c_expr::{Cursor, LEVELS, ParseFault, parse_cond, parse_expr};
use c_tree::Expr;
use std::alloc::Global;

/// An expression that may be an assignment (C11 6.5.16).
pub(crate) fn parse_assign(alloc: Global, cursor: &mut Cursor) -> Result<Expr, ParseFault>
    ensures { Reads expr_of result cursor.old cursor.new (ruled Assign) }
{
    if cursor.tokens.is_empty() {
        return Err(cursor.unexpected());
    }
    let (found, end) = parse_expr(alloc, cursor.tokens, 0, LEVELS - cursor.room)?;
    cursor.tokens = &cursor.tokens[end..];
    Ok(found)
}

/// A conditional expression (C11 6.5.15).
pub(crate) fn parse_conditional(alloc: Global, cursor: &mut Cursor) -> Result<Expr, ParseFault>
    ensures { Reads expr_of result cursor.old cursor.new (ruled Cond) }
{
    if cursor.tokens.is_empty() {
        return Err(cursor.unexpected());
    }
    let (found, end) = parse_cond(alloc, cursor.tokens, 0, LEVELS - cursor.room)?;
    cursor.tokens = &cursor.tokens[end..];
    Ok(found)
}
