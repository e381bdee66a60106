//! What an expression begins with.

ghost use Rattle.std.specs.Prelude.{◌≡◌};
ghost use Rattle.c_expr.specs.Next as next;
ghost use Rattle.c_expr.specs.Spelled as spelled;

use crate::cursor::Cursor;
use crate::fault::ParseFault;
use crate::keyword::{END_OF_FILE, GETCHAR, PUTCHAR};
use crate::punctuator::PARENTHESIS_OPEN;
use crate::spelled::{first_step, unary_op};
use c_token::Kind;
use c_tree::Callee;

/// The callee that is a reserved word.
pub(crate) fn builtin(cursor: &Cursor) -> Option<Callee>
    ensures { result ≡ spelled.builtin (next.kind_of cursor.now.tokens.now) }
{
    if cursor.is_word(GETCHAR) {
        Some(Callee::Getchar)
    } else if cursor.is_word(PUTCHAR) {
        Some(Callee::Putchar)
    } else {
        None
    }
}

fn is_operand(cursor: &Cursor) -> bool
    ensures { result ≡ next.is_operand (next.kind_of cursor.now.tokens.now) }
{
    match cursor.kind() {
        Some(Kind::Name(_)) | Some(Kind::Number(_, _)) | Some(Kind::Character(_)) => true,
        _ => { cursor.is_word(END_OF_FILE) || cursor.is_word(GETCHAR) || cursor.is_word(PUTCHAR) }
    }
}

/// Whether the next token begins an expression.
pub fn begins(cursor: &Cursor) -> bool
    ensures { result ≡ next.begins (next.kind_of cursor.now.tokens.now) }
{
    unary_op(cursor).is_some()
        || first_step(cursor).is_some()
        || cursor.is_sign(PARENTHESIS_OPEN)
        || is_operand(cursor)
}

/// Where no rule may be opened any more.
pub(crate) fn fault_at_start(cursor: &Cursor) -> ParseFault
    ensures { result ≡ next.fault_at_start cursor.now.tokens.now }
{
    if begins(cursor) {
        ParseFault::TooDeep(cursor.place())
    } else {
        cursor.unexpected()
    }
}
