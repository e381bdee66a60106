//! Statements (C11 6.8). Each function reads where the cursor is, and answers what it read.

ghost use Rattle.std.specs.Prelude.{map, option_map};
ghost use Rattle.c_tree.specs.View as view;
ghost use Rattle.c_token.specs.declared.token.Kind.TheVariants as k;
ghost use Rattle.c_expr.specs.Reads.{Reads, ReadsInPlace};
ghost use Rattle.c_decl.specs.private.StatementReading as read;

use crate::declarator::parse_vars;
use crate::expression::parse_assign;
use crate::marker::parse_marker;
use crate::node;
use crate::opening::{Opening, fault_at_start, opening_of};
use crate::reserved::{ELSE, WHILE};
use c_expr::punctuator::{BRACE_CLOSE, PARENTHESIS_CLOSE, PARENTHESIS_OPEN, SEMICOLON};
use c_expr::{Cursor, ParseFault, is_base};
use c_tree::{Expr, First, Place, Stmt};
use std::alloc::Global;

/// An expression, if one stands before the sign that closes it; the sign too.
fn parse_optional(
    alloc: Global,
    closer: [u8; 3],
    cursor: &mut Cursor,
) -> Result<Option<Expr>, ParseFault>
    ensures { Reads (option_map view.expr_of) result cursor.old cursor.new
        (read.optional (k.Sign closer)) }
{
    if cursor.is_sign(closer) {
        cursor.take()?;
        Ok(None)
    } else {
        let value = parse_assign(alloc, cursor)?;
        cursor.expect(closer)?;
        Ok(Some(value))
    }
}

/// What a `for` begins with, through the first semicolon.
fn parse_first(alloc: Global, cursor: &mut Cursor) -> Result<First, ParseFault>
    ensures { Reads view.first_of result cursor.old cursor.new read.beginning }
{
    if cursor.is_sign(SEMICOLON) {
        cursor.take()?;
        Ok(First::Nothing)
    } else if is_base(cursor) {
        Ok(First::Vars(parse_vars(alloc, cursor)?))
    } else {
        let value = parse_assign(alloc, cursor)?;
        cursor.expect(SEMICOLON)?;
        Ok(First::Expr(value))
    }
}

/// An expression in parentheses.
fn parse_test(alloc: Global, cursor: &mut Cursor) -> Result<Expr, ParseFault>
    ensures { Reads view.expr_of result cursor.old cursor.new read.test }
{
    cursor.expect(PARENTHESIS_OPEN)?;
    let value = parse_assign(alloc, cursor)?;
    cursor.expect(PARENTHESIS_CLOSE)?;
    Ok(value)
}

/// An expression statement (C11 6.8.3).
fn parse_expr_stmt(alloc: Global, cursor: &mut Cursor) -> Result<Stmt, ParseFault>
    ensures { Reads view.stmt_of result cursor.old cursor.new read.expr_stmt }
{
    let place = cursor.place();
    let value = parse_assign(alloc, cursor)?;
    cursor.expect(SEMICOLON)?;
    Ok(node::build_expr(value, place))
}

/// A declaration.
fn parse_vars_stmt(alloc: Global, cursor: &mut Cursor) -> Result<Stmt, ParseFault>
    ensures { Reads view.stmt_of result cursor.old cursor.new read.vars_stmt }
{
    let place = cursor.place();
    let found = parse_vars(alloc, cursor)?;
    Ok(node::build_vars(found, place))
}

/// A marker.
fn parse_marker_stmt(alloc: Global, cursor: &mut Cursor) -> Result<Stmt, ParseFault>
    ensures { Reads view.stmt_of result cursor.old cursor.new read.marker_stmt }
{
    let place = cursor.place();
    let found = parse_marker(alloc, cursor)?;
    Ok(node::build_marker(found, place))
}

/// An empty statement (C11 6.8.3).
fn parse_empty(cursor: &mut Cursor) -> Result<Stmt, ParseFault>
    ensures { ReadsInPlace view.stmt_of result cursor.old cursor.new read.empty }
{
    let place = cursor.take()?.place;
    Ok(node::build_empty(place))
}

/// A `return` (C11 6.8.6.4).
fn parse_return(alloc: Global, cursor: &mut Cursor) -> Result<Stmt, ParseFault>
    ensures { Reads view.stmt_of result cursor.old cursor.new read.return_stmt }
{
    let place = cursor.take()?.place;
    let value = parse_optional(alloc, SEMICOLON, cursor)?;
    Ok(node::build_return(value, place))
}

/// A `break` (C11 6.8.6.3).
fn parse_break(cursor: &mut Cursor) -> Result<Stmt, ParseFault>
    ensures { ReadsInPlace view.stmt_of result cursor.old cursor.new read.break_stmt }
{
    let place = cursor.take()?.place;
    cursor.expect(SEMICOLON)?;
    Ok(node::build_break(place))
}

/// A `continue` (C11 6.8.6.2).
fn parse_continue(cursor: &mut Cursor) -> Result<Stmt, ParseFault>
    ensures { ReadsInPlace view.stmt_of result cursor.old cursor.new read.continue_stmt }
{
    let place = cursor.take()?.place;
    cursor.expect(SEMICOLON)?;
    Ok(node::build_continue(place))
}

/// Opens a statement, which adds a level.
#[tactic(auto, using(crate::proofs::Nested::stated_open, crate::proofs::Nested::stated_stop))]
#[cycle(statements)]
fn parse_stmt(alloc: Global, cursor: &mut Cursor) -> Result<Stmt, ParseFault>
    ensures { Reads view.stmt_of result cursor.old cursor.new read.stated }
{
    if cursor.room == 0 {
        return Err(fault_at_start(cursor));
    }
    cursor.room -= 1;
    let found = parse_opened(alloc, cursor)?;
    cursor.room += 1;
    Ok(found)
}

#[tactic(auto, unfolding(crate::specs::private::StatementReading::opened))]
#[cycle(statements)]
fn parse_opened(alloc: Global, cursor: &mut Cursor) -> Result<Stmt, ParseFault>
    ensures { Reads view.stmt_of result cursor.old cursor.new (read.opened read.stated) }
{
    match opening_of(cursor) {
        Some(Opening::Empty) => parse_empty(cursor),
        Some(Opening::Block) => parse_block(alloc, cursor),
        Some(Opening::If) => parse_if(alloc, cursor),
        Some(Opening::While) => parse_while(alloc, cursor),
        Some(Opening::Do) => parse_do(alloc, cursor),
        Some(Opening::For) => parse_for(alloc, cursor),
        Some(Opening::Return) => parse_return(alloc, cursor),
        Some(Opening::Break) => parse_break(cursor),
        Some(Opening::Continue) => parse_continue(cursor),
        Some(Opening::Marker) => parse_marker_stmt(alloc, cursor),
        None => parse_expr_stmt(alloc, cursor),
    }
}

/// A block (C11 6.8.2).
#[cycle(statements)]
fn parse_block(alloc: Global, cursor: &mut Cursor) -> Result<Stmt, ParseFault>
    ensures { Reads view.stmt_of result cursor.old cursor.new (read.block read.stated) }
{
    let place = cursor.take()?.place;
    let found = parse_body(alloc, cursor)?;
    Ok(node::build_block(found, place))
}

/// A `while` (C11 6.8.5.1).
#[cycle(statements)]
fn parse_while(alloc: Global, cursor: &mut Cursor) -> Result<Stmt, ParseFault>
    ensures { Reads view.stmt_of result cursor.old cursor.new (read.while_stmt read.stated) }
{
    let place = cursor.take()?.place;
    let test = parse_test(alloc, cursor)?;
    let body = parse_stmt(alloc, cursor)?;
    Ok(node::build_while(alloc, test, body, place)?)
}

/// An `if` (C11 6.8.4.1).
#[cycle(statements)]
fn parse_if(alloc: Global, cursor: &mut Cursor) -> Result<Stmt, ParseFault>
    ensures { Reads view.stmt_of result cursor.old cursor.new (read.if_stmt read.stated) }
{
    let place = cursor.take()?.place;
    let test = parse_test(alloc, cursor)?;
    let then = parse_stmt(alloc, cursor)?;
    parse_else(alloc, test, then, place, cursor)
}

/// What follows the first statement of an `if`.
#[cycle(statements)]
fn parse_else(
    alloc: Global,
    test: Expr,
    then: Stmt,
    place: Place,
    cursor: &mut Cursor,
) -> Result<Stmt, ParseFault>
    ensures { Reads view.stmt_of result cursor.old cursor.new
        (read.else_part read.stated (view.expr_of test) (view.stmt_of then) place) }
{
    if cursor.is_word(ELSE) {
        cursor.take()?;
        let other = parse_stmt(alloc, cursor)?;
        Ok(node::build_if_else(alloc, test, then, other, place)?)
    } else {
        Ok(node::build_if(alloc, test, then, place)?)
    }
}

/// A `do` (C11 6.8.5.2).
#[cycle(statements)]
fn parse_do(alloc: Global, cursor: &mut Cursor) -> Result<Stmt, ParseFault>
    ensures { Reads view.stmt_of result cursor.old cursor.new (read.do_stmt read.stated) }
{
    let place = cursor.take()?.place;
    let body = parse_stmt(alloc, cursor)?;
    cursor.expect_word(WHILE)?;
    let test = parse_test(alloc, cursor)?;
    cursor.expect(SEMICOLON)?;
    Ok(node::build_do(alloc, body, test, place)?)
}

/// A `for` (C11 6.8.5.3).
#[cycle(statements)]
fn parse_for(alloc: Global, cursor: &mut Cursor) -> Result<Stmt, ParseFault>
    ensures { Reads view.stmt_of result cursor.old cursor.new (read.for_stmt read.stated) }
{
    let place = cursor.take()?.place;
    cursor.expect(PARENTHESIS_OPEN)?;
    let first = parse_first(alloc, cursor)?;
    let test = parse_optional(alloc, SEMICOLON, cursor)?;
    let step = parse_optional(alloc, PARENTHESIS_CLOSE, cursor)?;
    let body = parse_stmt(alloc, cursor)?;
    Ok(node::build_for(alloc, first, test, step, body, place)?)
}

/// A declaration or a statement.
#[cycle(statements)]
fn parse_block_item(alloc: Global, cursor: &mut Cursor) -> Result<Stmt, ParseFault>
    ensures { Reads view.stmt_of result cursor.old cursor.new (read.part read.stated) }
{
    if is_base(cursor) {
        parse_vars_stmt(alloc, cursor)
    } else {
        parse_stmt(alloc, cursor)
    }
}

/// What stands in a block (C11 6.8.2), and the closing brace.
#[cycle(statements)]
pub(crate) fn parse_body(alloc: Global, cursor: &mut Cursor) -> Result<Vec<Stmt>, ParseFault>
    ensures { Reads (λ found. map view.stmt_of found.items) result cursor.old cursor.new
        (read.body read.stated) }
{
    let mut found = Vec::new(alloc);
    for _ in 0..cursor.tokens.len() {
        if cursor.is_sign(BRACE_CLOSE) {
            cursor.take()?;
            return Ok(found);
        }
        let one = parse_block_item(alloc, cursor)?;
        found.push(one)?;
    }
    Err(cursor.unexpected())
}
