//! Bases of types (C11 6.7.2).

ghost use Rattle.std.specs.Prelude.{◌≡◌, option_map};
ghost use Rattle.c_tree.specs.View.{ty_of};
ghost use Rattle.c_expr.specs.Next as next;
ghost use Rattle.c_expr.specs.Reads.{ReadsInPlace};
ghost use Rattle.c_expr.specs.Spelled as spelled;

use crate::cursor::Cursor;
use crate::fault::ParseFault;
use crate::keyword::{CHAR, INT, UNSIGNED};
use c_tree::CType;

/// A base that is one word.
fn plain_base(cursor: &Cursor) -> Option<CType>
    ensures { option_map ty_of result ≡ spelled.plain_base (next.kind_of cursor.now.tokens.now) }
{
    if cursor.is_word(INT) {
        Some(CType::Int)
    } else if cursor.is_word(CHAR) {
        Some(CType::Char)
    } else {
        None
    }
}

/// Whether the next token begins a base.
pub fn is_base(cursor: &Cursor) -> bool
    ensures { result ≡ next.is_base (next.kind_of cursor.now.tokens.now) }
{
    plain_base(cursor).is_some() || cursor.is_word(UNSIGNED)
}

/// A base (C11 6.7.2).
pub fn parse_base(cursor: &mut Cursor) -> Result<CType, ParseFault>
    ensures { ReadsInPlace ty_of result cursor.old cursor.new next.base }
{
    if let Some(plain) = plain_base(cursor) {
        cursor.take()?;
        Ok(plain)
    } else if cursor.is_word(UNSIGNED) {
        cursor.take()?;
        parse_after_unsigned(cursor)
    } else {
        Err(cursor.unexpected())
    }
}

fn parse_after_unsigned(cursor: &mut Cursor) -> Result<CType, ParseFault>
    ensures { ReadsInPlace ty_of result cursor.old cursor.new
        (λ r ts. next.after_unsigned (spelled.plain_base (next.kind_of ts)) r ts) }
{
    if cursor.is_word(INT) {
        cursor.take()?;
        Ok(CType::Unsigned)
    } else if cursor.is_word(CHAR) {
        cursor.take()?;
        Ok(CType::Char)
    } else {
        Ok(CType::Unsigned)
    }
}
