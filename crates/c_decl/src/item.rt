//! Items of a text (C11 6.9).

ghost use Rattle.std.specs.Prelude.{◌≡◌, map, option_map};
ghost use Rattle.c_tree.specs.View as view;
ghost use Rattle.c_expr.specs.Next.{kind_of};
ghost use Rattle.c_expr.specs.Reads.{Reads};
ghost use Rattle.c_decl.specs.private.UnitReading as read;
ghost use Rattle.c_decl.specs.GrammarWords as words;

use crate::declarator::{
    Head, parse_after_name, parse_more_vars, parse_name, parse_stars, parse_vars,
};
use crate::parameter::parse_params;
use crate::reserved::{BOP_CHECKED, BOP_PRIVATE, VOID};
use crate::statement::parse_body;
use c_expr::punctuator::{BRACE_OPEN, PARENTHESIS_OPEN, SEMICOLON};
use c_expr::{Cursor, ParseFault, parse_base};
use c_tree::{CType, Fun, Item, Keep, Name, Param, Place, Stmt};
use std::alloc::Global;

/// How globals are kept, where a word says it.
fn keep_of(cursor: &Cursor) -> Option<Keep>
    ensures { result ≡ words.keep_of (kind_of cursor.now.tokens.now) }
{
    if cursor.is_word(BOP_CHECKED) {
        Some(Keep::Checked)
    } else if cursor.is_word(BOP_PRIVATE) {
        Some(Keep::Private)
    } else {
        None
    }
}

/// An item.
pub(crate) fn parse_item(alloc: Global, cursor: &mut Cursor) -> Result<Item, ParseFault>
    ensures { Reads view.item_of result cursor.old cursor.new read.item }
{
    if let Some(keep) = keep_of(cursor) {
        cursor.take()?;
        Ok(Item::Vars(keep, parse_vars(alloc, cursor)?))
    } else if cursor.is_word(VOID) {
        cursor.take()?;
        let (name, place) = parse_name(alloc, cursor)?;
        let head = Head {
            base: CType::Void,
            stars: 0,
            name,
            place,
        };
        parse_fun(alloc, head, cursor)
    } else {
        parse_typed(alloc, cursor)
    }
}

/// An item that begins with a base.
fn parse_typed(alloc: Global, cursor: &mut Cursor) -> Result<Item, ParseFault>
    ensures { Reads view.item_of result cursor.old cursor.new read.typed }
{
    let room = cursor.room;
    let base = parse_base(cursor)?;
    let stars = parse_stars(cursor)?;
    let (name, place) = parse_name(alloc, cursor)?;
    let head = Head {
        base,
        stars,
        name,
        place,
    };
    if cursor.is_sign(PARENTHESIS_OPEN) {
        let found = parse_fun(alloc, head, cursor)?;
        cursor.room = room;
        Ok(found)
    } else {
        let base = head.base.again(alloc)?;
        let first = parse_after_name(alloc, head, cursor)?;
        cursor.room = room;
        let found = parse_more_vars(alloc, &base, first, cursor)?;
        Ok(Item::Vars(Keep::Shared, found))
    }
}

/// A function, after its name.
fn parse_fun(alloc: Global, head: Head, cursor: &mut Cursor) -> Result<Item, ParseFault>
    ensures { Reads view.item_of result cursor.old cursor.new
        (read.function (view.ty_of head.base) head.stars head.name head.place) }
{
    cursor.expect(PARENTHESIS_OPEN)?;
    let params = parse_params(alloc, cursor)?;
    let body = parse_fun_body(alloc, cursor)?;
    Ok(Item::Fun(Fun {
        base: head.base,
        stars: head.stars,
        name: head.name,
        place: head.place,
        params,
        body,
    }))
}

/// The body of a function, or a semicolon in its place.
fn parse_fun_body(alloc: Global, cursor: &mut Cursor) -> Result<Option<Vec<Stmt>>, ParseFault>
    ensures { Reads (option_map (λ body. map view.stmt_of body.items)) result
        cursor.old cursor.new read.function_body }
{
    if cursor.is_sign(SEMICOLON) {
        cursor.take()?;
        Ok(None)
    } else {
        cursor.expect(BRACE_OPEN)?;
        Ok(Some(parse_body(alloc, cursor)?))
    }
}
