//! Whole texts (C11 6.9).

ghost use Rattle.std.specs.Prelude.{◌≡◌, map};
ghost use Rattle.c_tree.specs.View as view;
ghost use Rattle.c_expr.specs.Parsing.{IsEnded};
ghost use Rattle.c_expr.specs.Next.{is_end, kind_of};
ghost use Rattle.c_expr.specs.Reads.{Reads};
ghost use Rattle.c_decl.specs.private.UnitReading as read;
ghost use Rattle.c_decl.specs.Whole.{ParsedText};

use crate::item::parse_item;
use c_expr::{Cursor, LEVELS, ParseFault};
use c_token::{Kind, Token};
use c_tree::{Item, Tree};
use std::alloc::Global;

/// Whether the text ends here.
fn at_end(cursor: &Cursor) -> bool
    ensures { result ≡ is_end (kind_of cursor.now.tokens.now) }
{
    matches!(cursor.kind(), None | Some(Kind::End))
}

/// The items of a text and its end.
fn parse_items(alloc: Global, cursor: &mut Cursor) -> Result<Vec<Item>, ParseFault>
    ensures { Reads (λ found. map view.item_of found.items) result cursor.old cursor.new
        read.unit }
{
    let mut found = Vec::new(alloc);
    for _ in 0..cursor.tokens.len() {
        if at_end(cursor) {
            cursor.take()?;
            return Ok(found);
        }
        let one = parse_item(alloc, cursor)?;
        found.push(one)?;
    }
    Err(cursor.unexpected())
}

/// The tree of a whole text, from its tokens, of which the last is the end of the text.
pub fn parse(alloc: Global, tokens: &[Token]) -> Result<Tree, ParseFault>
    requires { IsEnded tokens.now }
    ensures { ParsedText tokens.now result }
{
    let mut cursor = Cursor {
        tokens,
        room: LEVELS,
    };
    let items = parse_items(alloc, &mut cursor)?;
    match cursor.tokens {
        [] => Ok(Tree { items }),
        [next, ..] => Err(ParseFault::Unexpected(next.place)),
    }
}
