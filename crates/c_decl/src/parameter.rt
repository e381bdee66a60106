//! Parameters of functions (C11 6.7.6.3).

ghost use Rattle.std.specs.Prelude.{map};
ghost use Rattle.c_tree.specs.View as view;
ghost use Rattle.c_expr.specs.Reads.{Reads, ReadsInPlace};
ghost use Rattle.c_decl.specs.private.DeclarationReading as read;

use crate::declarator::parse_stars;
use crate::reserved::VOID;
use c_expr::punctuator::{BRACKET_CLOSE, BRACKET_OPEN, COMMA, PARENTHESIS_CLOSE};
use c_expr::{Cursor, ParseFault, parse_base};
use c_token::Kind;
use c_tree::{Name, Param, Place};
use std::alloc::Global;

/// Whether `[]` stands next, which is read.
fn parse_brackets(cursor: &mut Cursor) -> Result<bool, ParseFault>
    ensures { ReadsInPlace (λ array. array) result cursor.old cursor.new read.brackets }
{
    if cursor.is_sign(BRACKET_OPEN) {
        cursor.take()?;
        cursor.room -= 1;
        cursor.expect(BRACKET_CLOSE)?;
        cursor.room += 1;
        Ok(true)
    } else {
        Ok(false)
    }
}

/// The name, if one stands next, and the place of the parameter: that of the name, or else its first token's.
fn parse_own_name(
    alloc: Global,
    first: Place,
    cursor: &mut Cursor,
) -> Result<(Option<Name>, Place), ParseFault>
    ensures { Reads (λ x. x) result cursor.old cursor.new (read.own_name first) }
{
    match cursor.kind() {
        Some(Kind::Name(name)) => {
            let place = cursor.take()?.place;
            Ok((Some(name.again(alloc)?), place))
        }
        _ => Ok((None, first)),
    }
}

/// A parameter.
fn parse_param(alloc: Global, cursor: &mut Cursor) -> Result<Param, ParseFault>
    ensures { Reads view.param_of result cursor.old cursor.new read.parameter }
{
    let room = cursor.room;
    let first = cursor.place();
    let base = parse_base(cursor)?;
    let stars = parse_stars(cursor)?;
    let (name, place) = parse_own_name(alloc, first, cursor)?;
    let array = parse_brackets(cursor)?;
    cursor.room = room;
    Ok(Param {
        base,
        stars,
        name,
        place,
        array,
    })
}

/// The parameters of a function, through the closing parenthesis.
pub(crate) fn parse_params(alloc: Global, cursor: &mut Cursor) -> Result<Vec<Param>, ParseFault>
    ensures { Reads (λ found. map view.param_of found.items) result cursor.old cursor.new
        read.parameters }
{
    if cursor.is_sign(PARENTHESIS_CLOSE) {
        cursor.take()?;
        Ok(Vec::new(alloc))
    } else if cursor.is_word(VOID) {
        cursor.take()?;
        cursor.expect(PARENTHESIS_CLOSE)?;
        Ok(Vec::new(alloc))
    } else {
        parse_param_list(alloc, cursor)
    }
}

/// Parameters with commas between them, and the closing parenthesis.
fn parse_param_list(alloc: Global, cursor: &mut Cursor) -> Result<Vec<Param>, ParseFault>
    ensures { Reads (λ found. map view.param_of found.items) result cursor.old cursor.new
        read.parameter_list }
{
    let mut found = Vec::new(alloc);
    for _ in 0..cursor.tokens.len() {
        let one = parse_param(alloc, cursor)?;
        found.push(one)?;
        if cursor.is_sign(COMMA) {
            cursor.take()?;
        } else {
            cursor.expect(PARENTHESIS_CLOSE)?;
            return Ok(found);
        }
    }
    Err(cursor.unexpected())
}
