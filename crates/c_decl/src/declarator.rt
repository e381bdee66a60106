//! Declarators. Each function reads where the cursor is, and answers what it read.

ghost use Rattle.std.specs.Prelude.{◌≤◌, [], map, option_map};
ghost use Rattle.c_tree.specs.View as view;
ghost use Rattle.c_expr.specs.Reads.{Reads, ReadsInPlace};
ghost use Rattle.c_decl.specs.private.DeclarationReading as read;
ghost use Rattle.c_decl.specs.private.Lowers.{Lowers};

use crate::expression::{parse_assign, parse_conditional};
use c_expr::punctuator::{
    BRACE_CLOSE, BRACE_OPEN, BRACKET_CLOSE, BRACKET_OPEN, COMMA, EQUALS, SEMICOLON, STAR,
};
use c_expr::{Cursor, ParseFault, parse_base};
use c_token::Kind;
use c_tree::{CType, Expr, Init, Name, Place, Var};
use std::alloc::Global;

/// What a declarator begins with: the base, the stars, the name and its place.
#[derive(Drop)]
pub(crate) struct Head {
    pub(crate) base: CType,
    pub(crate) stars: u32,
    pub(crate) name: Name,
    pub(crate) place: Place,
}

/// Stars (C11 6.7.6.1): how many. Each adds a level to what follows.
pub(crate) fn parse_stars(cursor: &mut Cursor) -> Result<u32, ParseFault>
    ensures { Lowers (λ n. n) result cursor.old cursor.new (λ r. read.stars_from r 0) }
{
    let mut count = 0;
    while cursor.is_sign(STAR) {
        cursor.take()?;
        cursor.room -= 1;
        count += 1;
    }
    Ok(count)
}

/// A name, in memory of its own, and its place.
pub(crate) fn parse_name(alloc: Global, cursor: &mut Cursor) -> Result<(Name, Place), ParseFault>
    ensures { Reads (λ x. x) result cursor.old cursor.new read.name }
{
    match cursor.kind() {
        Some(Kind::Name(name)) => {
            let place = cursor.take()?.place;
            Ok((name.again(alloc)?, place))
        }
        _ => Err(cursor.unexpected()),
    }
}

/// Sizes of arrays after a name (C11 6.7.6.2). Each bracket adds a level to what follows.
fn parse_sizes(alloc: Global, cursor: &mut Cursor) -> Result<Vec<Expr>, ParseFault>
    ensures { Lowers (λ found. map view.expr_of found.items) result cursor.old cursor.new
        (λ r. read.sizes_from r []) }
{
    let mut found = Vec::new(alloc);
    while cursor.is_sign(BRACKET_OPEN) {
        cursor.take()?;
        cursor.room -= 1;
        let size = parse_conditional(alloc, cursor)?;
        cursor.expect(BRACKET_CLOSE)?;
        found.push(size)?;
    }
    Ok(found)
}

/// What a variable is initialised with (C11 6.7.9).
fn parse_init(alloc: Global, cursor: &mut Cursor) -> Result<Init, ParseFault>
    ensures { Reads view.init_of result cursor.old cursor.new read.init }
{
    if cursor.is_sign(BRACE_OPEN) {
        cursor.take()?;
        Ok(Init::Many(parse_values(alloc, cursor)?))
    } else {
        Ok(Init::One(parse_assign(alloc, cursor)?))
    }
}

/// Values with commas between them and the closing brace, before which one more comma may stand.
fn parse_values(alloc: Global, cursor: &mut Cursor) -> Result<Vec<Expr>, ParseFault>
    ensures { Reads (λ found. map view.expr_of found.items) result cursor.old cursor.new
        read.values }
{
    let mut found = Vec::new(alloc);
    for _ in 0..cursor.tokens.len() {
        let value = parse_assign(alloc, cursor)?;
        found.push(value)?;
        if parse_value_end(cursor)? {
            return Ok(found);
        }
    }
    Err(cursor.unexpected())
}

/// What follows a value, and whether that ends the list.
fn parse_value_end(cursor: &mut Cursor) -> Result<bool, ParseFault>
    ensures { ReadsInPlace (λ ended. ended) result cursor.old cursor.new read.value_end }
{
    if cursor.is_sign(COMMA) {
        cursor.take()?;
        if cursor.is_sign(BRACE_CLOSE) {
            cursor.take()?;
            Ok(true)
        } else {
            Ok(false)
        }
    } else {
        cursor.expect(BRACE_CLOSE)?;
        Ok(true)
    }
}

/// A declarator (C11 6.7.6), after its base.
fn parse_var(alloc: Global, base: &CType, cursor: &mut Cursor) -> Result<Var, ParseFault>
    ensures { Reads view.var_of result cursor.old cursor.new
        (read.declarator (view.ty_of base.now)) }
{
    let room = cursor.room;
    let stars = parse_stars(cursor)?;
    let (name, place) = parse_name(alloc, cursor)?;
    let base = base.again(alloc)?;
    let head = Head {
        base,
        stars,
        name,
        place,
    };
    let found = parse_after_name(alloc, head, cursor)?;
    cursor.room = room;
    Ok(found)
}

/// The rest of a declarator, after its name.
pub(crate) fn parse_after_name(
    alloc: Global,
    head: Head,
    cursor: &mut Cursor,
) -> Result<Var, ParseFault>
    ensures { Reads view.var_of result cursor.old cursor.new
        (read.behind_name (view.ty_of head.base) head.stars head.name head.place) }
{
    let room = cursor.room;
    let sizes = parse_sizes(alloc, cursor)?;
    let init = parse_optional_init(alloc, cursor)?;
    cursor.room = room;
    Ok(Var {
        base: head.base,
        stars: head.stars,
        name: head.name,
        place: head.place,
        sizes,
        init,
    })
}

/// The initialiser of a declarator, if it has one.
fn parse_optional_init(alloc: Global, cursor: &mut Cursor) -> Result<Option<Init>, ParseFault>
    ensures { Reads (option_map view.init_of) result cursor.old cursor.new read.initialised }
{
    if cursor.is_sign(EQUALS) {
        cursor.take()?;
        Ok(Some(parse_init(alloc, cursor)?))
    } else {
        Ok(None)
    }
}

/// What follows the first declarator, through the semicolon.
pub(crate) fn parse_more_vars(
    alloc: Global,
    base: &CType,
    first: Var,
    cursor: &mut Cursor,
) -> Result<Vec<Var>, ParseFault>
    ensures { Reads (λ found. map view.var_of found.items) result cursor.old cursor.new
        (read.more_declarators (view.ty_of base.now) (view.var_of first)) }
{
    let mut found = Vec::new(alloc);
    found.push(first)?;
    for _ in 0..cursor.tokens.len() {
        if cursor.is_sign(COMMA) {
            cursor.take()?;
            let next = parse_var(alloc, base, cursor)?;
            found.push(next)?;
        } else {
            cursor.expect(SEMICOLON)?;
            return Ok(found);
        }
    }
    Err(cursor.unexpected())
}

/// A declaration of variables (C11 6.7), through the semicolon.
pub(crate) fn parse_vars(alloc: Global, cursor: &mut Cursor) -> Result<Vec<Var>, ParseFault>
    ensures { Reads (λ found. map view.var_of found.items) result cursor.old cursor.new
        read.vars }
{
    let base = parse_base(cursor)?;
    let first = parse_var(alloc, &base, cursor)?;
    parse_more_vars(alloc, &base, first, cursor)
}
