//! Recursive descent. Each function reads a rule where the cursor is, and answers its tree.

ghost use Rattle.std.specs.Prelude.{◌≡◌, ◌<◌, map};
ghost use Rattle.c_tree.specs.View.{expr_of};
ghost use Rattle.c_expr.specs.private.ExpressionReading as read;
ghost use Rattle.c_expr.specs.Next.{kind_of};
ghost use Rattle.c_expr.specs.Reads.{Reads};

use crate::bases::{is_base, parse_base};
use crate::cursor::Cursor;
use crate::fault::ParseFault;
use crate::keyword::END_OF_FILE;
use crate::node;
use crate::opening::{builtin, fault_at_start};
use crate::punctuator::{
    BRACKET_CLOSE, BRACKET_OPEN, COLON, COMMA, PARENTHESIS_CLOSE, PARENTHESIS_OPEN, QUESTION,
};
use crate::rule::Rule;
use crate::spelled::{assign_op, binary_op, first_step, last_step, rank, unary_op};
use c_token::Kind;
use c_tree::{Binary, Callee, Expr, Name, Place};
use std::alloc::Global;

fn operator_of(at: u32, cursor: &Cursor) -> Option<Binary>
    ensures { result ≡ read.operator_of at (kind_of cursor.now.tokens.now) }
{
    match binary_op(cursor) {
        Some(operator) if rank(operator) == at => Some(operator),
        _ => None,
    }
}

/// Opens a rule, which adds a level.
#[tactic(auto, using(crate::proofs::Depth::ruled_open, crate::proofs::Depth::ruled_stop))]
#[cycle(rules)]
pub(crate) fn open_rule(alloc: Global, which: Rule, cursor: &mut Cursor) -> Result<Expr, ParseFault>
    ensures { Reads expr_of result cursor.old cursor.new (read.ruled which) }
{
    if cursor.room == 0 {
        return Err(fault_at_start(cursor));
    }
    cursor.room -= 1;
    let found = parse_inside(alloc, which, cursor)?;
    cursor.room += 1;
    Ok(found)
}

/// What a rule is, once it is opened.
#[cycle(rules)]
fn parse_inside(alloc: Global, which: Rule, cursor: &mut Cursor) -> Result<Expr, ParseFault>
    ensures { Reads expr_of result cursor.old cursor.new (read.inside read.ruled which) }
{
    match which {
        Rule::Assign => parse_assign(alloc, cursor),
        Rule::Cond => parse_conditional(alloc, cursor),
        Rule::Unary => parse_unary(alloc, cursor),
    }
}

/// An expression that may be an assignment (C11 6.5.16).
#[tactic(auto, unfolding(crate::specs::private::ExpressionReading::assign_inside))]
#[cycle(rules)]
fn parse_assign(alloc: Global, cursor: &mut Cursor) -> Result<Expr, ParseFault>
    ensures { Reads expr_of result cursor.old cursor.new (read.assign_inside read.ruled) }
{
    let left = open_rule(alloc, Rule::Cond, cursor)?;
    match assign_op(cursor) {
        Some(how) => {
            let place = cursor.take()?.place;
            let right = open_rule(alloc, Rule::Assign, cursor)?;
            Ok(node::build_assign(alloc, how, left, right, place)?)
        }
        None => Ok(left),
    }
}

/// A conditional expression (C11 6.5.15).
#[tactic(auto, unfolding(crate::specs::private::ExpressionReading::cond_inside))]
#[cycle(rules)]
fn parse_conditional(alloc: Global, cursor: &mut Cursor) -> Result<Expr, ParseFault>
    ensures { Reads expr_of result cursor.old cursor.new (read.cond_inside read.ruled) }
{
    let test = parse_binary(alloc, 10, cursor)?;
    if !cursor.is_sign(QUESTION) {
        return Ok(test);
    }
    let place = cursor.take()?.place;
    let yes = open_rule(alloc, Rule::Assign, cursor)?;
    cursor.expect(COLON)?;
    let no = open_rule(alloc, Rule::Cond, cursor)?;
    Ok(node::build_conditional(alloc, test, yes, no, place)?)
}

/// Operands that are joined by operators of this rank and of tighter ones (C11 6.5.5 to 6.5.14).
/// Each operator adds a level to what follows.
#[tactic(auto, unfolding(crate::specs::private::ExpressionReading::binary))]
#[cycle(rules)]
fn parse_binary(alloc: Global, at: u32, cursor: &mut Cursor) -> Result<Expr, ParseFault>
    ensures { Reads expr_of result cursor.old cursor.new (read.binary read.ruled at) }
{
    if at == 0 {
        return open_rule(alloc, Rule::Unary, cursor);
    }
    let room = cursor.room;
    let mut left = parse_binary(alloc, at - 1, cursor)?;
    while let Some(operator) = operator_of(at, cursor) {
        let place = cursor.take()?.place;
        cursor.room -= 1;
        let right = parse_binary(alloc, at - 1, cursor)?;
        left = node::build_binary(alloc, operator, left, right, place)?;
    }
    cursor.room = room;
    Ok(left)
}

/// An expression that operators stand before or after, or none (C11 6.5.3 and 6.5.4).
#[tactic(auto, unfolding(crate::specs::private::ExpressionReading::unary_inside))]
#[cycle(rules)]
fn parse_unary(alloc: Global, cursor: &mut Cursor) -> Result<Expr, ParseFault>
    ensures { Reads expr_of result cursor.old cursor.new (read.unary_inside read.ruled) }
{
    if let Some(op) = unary_op(cursor) {
        let place = cursor.take()?.place;
        let of = open_rule(alloc, Rule::Unary, cursor)?;
        Ok(node::build_unary(alloc, op, of, place)?)
    } else if let Some(how) = first_step(cursor) {
        let place = cursor.take()?.place;
        let of = open_rule(alloc, Rule::Unary, cursor)?;
        Ok(node::build_step(alloc, how, of, place)?)
    } else if cursor.is_sign(PARENTHESIS_OPEN) {
        let place = cursor.take()?.place;
        parse_cast_or_group(alloc, place, cursor)
    } else {
        let of = parse_primary(alloc, cursor)?;
        parse_suffixes(alloc, of, cursor)
    }
}

/// After a parenthesis: a cast, or an expression in parentheses.
#[cycle(rules)]
fn parse_cast_or_group(alloc: Global, place: Place, cursor: &mut Cursor) -> Result<Expr, ParseFault>
    ensures { Reads expr_of result cursor.old cursor.new (read.cast_or_group read.ruled place) }
{
    if is_base(cursor) {
        let to = parse_base(cursor)?;
        cursor.expect(PARENTHESIS_CLOSE)?;
        let of = open_rule(alloc, Rule::Unary, cursor)?;
        Ok(node::build_cast(alloc, to, of, place)?)
    } else {
        let inner = open_rule(alloc, Rule::Assign, cursor)?;
        cursor.expect(PARENTHESIS_CLOSE)?;
        parse_suffixes(alloc, inner, cursor)
    }
}

/// The suffixes of an expression (C11 6.5.2.1 and 6.5.2.4). Each adds a level to what follows.
#[cycle(rules)]
fn parse_suffixes(alloc: Global, first: Expr, cursor: &mut Cursor) -> Result<Expr, ParseFault>
    ensures { Reads expr_of result cursor.old cursor.new
        (λ r. read.suffixes_from read.ruled r (expr_of first)) }
{
    let room = cursor.room;
    let mut value = first;
    loop {
        if cursor.is_sign(BRACKET_OPEN) {
            let place = cursor.take()?.place;
            let index = open_rule(alloc, Rule::Assign, cursor)?;
            cursor.expect(BRACKET_CLOSE)?;
            value = node::build_index(alloc, value, index, place)?;
        } else if let Some(how) = last_step(cursor) {
            let place = cursor.take()?.place;
            value = node::build_step(alloc, how, value, place)?;
        } else {
            cursor.room = room;
            return Ok(value);
        }
        cursor.room -= 1;
    }
}

/// A name, a call, or a constant (C11 6.5.1 and 6.5.2.2).
#[cycle(rules)]
fn parse_primary(alloc: Global, cursor: &mut Cursor) -> Result<Expr, ParseFault>
    ensures { Reads expr_of result cursor.old cursor.new (read.primary read.ruled) }
{
    match cursor.kind() {
        Some(Kind::Name(name)) => {
            let place = cursor.take()?.place;
            parse_name(alloc, name, place, cursor)
        }
        Some(Kind::Number(ty, value)) => {
            let place = cursor.take()?.place;
            Ok(node::build_number(ty.again(alloc)?, *value, place))
        }
        Some(Kind::Character(code)) => {
            let place = cursor.take()?.place;
            Ok(node::build_character(*code, place))
        }
        _ => parse_reserved(alloc, cursor),
    }
}

/// A primary expression that begins with a reserved word.
#[cycle(rules)]
fn parse_reserved(alloc: Global, cursor: &mut Cursor) -> Result<Expr, ParseFault>
    ensures { Reads expr_of result cursor.old cursor.new (read.by_word read.ruled) }
{
    if cursor.is_word(END_OF_FILE) {
        let place = cursor.take()?.place;
        Ok(node::build_eof(place))
    } else if let Some(callee) = builtin(cursor) {
        let place = cursor.take()?.place;
        cursor.expect(PARENTHESIS_OPEN)?;
        parse_call(alloc, callee, place, cursor)
    } else {
        Err(cursor.unexpected())
    }
}

/// A name, or a call of it.
#[cycle(rules)]
fn parse_name(
    alloc: Global,
    name: &Name,
    place: Place,
    cursor: &mut Cursor,
) -> Result<Expr, ParseFault>
    ensures { Reads expr_of result cursor.old cursor.new
        (read.name_or_call read.ruled name.now place) }
{
    let name = name.again(alloc)?;
    if cursor.is_sign(PARENTHESIS_OPEN) {
        cursor.take()?;
        parse_call(alloc, Callee::Name(name), place, cursor)
    } else {
        Ok(node::build_name(name, place))
    }
}

/// A call, after its parenthesis.
#[cycle(rules)]
fn parse_call(
    alloc: Global,
    callee: Callee,
    place: Place,
    cursor: &mut Cursor,
) -> Result<Expr, ParseFault>
    ensures { Reads expr_of result cursor.old cursor.new (read.call read.ruled callee place) }
{
    let found = parse_arguments(alloc, cursor)?;
    Ok(node::build_call(callee, found, place))
}

/// The arguments of a call and the closing parenthesis.
#[cycle(rules)]
fn parse_arguments(alloc: Global, cursor: &mut Cursor) -> Result<Vec<Expr>, ParseFault>
    ensures { Reads (λ found. map expr_of found.items) result cursor.old cursor.new
        (read.arguments read.ruled) }
{
    let mut found = Vec::new(alloc);
    if cursor.is_sign(PARENTHESIS_CLOSE) {
        cursor.take()?;
        return Ok(found);
    }
    for _ in 0..cursor.tokens.len() {
        let value = open_rule(alloc, Rule::Assign, cursor)?;
        found.push(value)?;
        if cursor.is_sign(COMMA) {
            cursor.take()?;
        } else {
            cursor.expect(PARENTHESIS_CLOSE)?;
            return Ok(found);
        }
    }
    Err(cursor.unexpected())
}
