//! What a statement begins with.

ghost use Rattle.std.specs.Prelude.{◌≡◌};
ghost use Rattle.c_expr.specs.Next.{kind_of};
ghost use Rattle.c_decl.specs.private.StatementReading as read;

use crate::reserved::{
    BEGIN_PPR, BREAK, CONTINUE, DO, END_PPR, FOR, IF, POST, RETURN, WAIT, WHILE,
};
use c_expr::punctuator::{BRACE_OPEN, SEMICOLON};
use c_expr::{Cursor, ParseFault, begins};

/// The form of a statement that begins with a word or sign of its own.
#[derive(Clone, Copy)]
pub(crate) enum Opening {
    Empty,
    Block,
    If,
    While,
    Do,
    For,
    Return,
    Break,
    Continue,
    Marker,
}

/// The form that the next token says; none begins an expression statement or no statement.
pub(crate) fn opening_of(cursor: &Cursor) -> Option<Opening>
    ensures { result ≡ read.opening_of (kind_of cursor.now.tokens.now) }
{
    if cursor.is_sign(SEMICOLON) {
        Some(Opening::Empty)
    } else if cursor.is_sign(BRACE_OPEN) {
        Some(Opening::Block)
    } else if cursor.is_word(IF) {
        Some(Opening::If)
    } else if cursor.is_word(WHILE) {
        Some(Opening::While)
    } else if cursor.is_word(DO) {
        Some(Opening::Do)
    } else if cursor.is_word(FOR) {
        Some(Opening::For)
    } else if cursor.is_word(RETURN) {
        Some(Opening::Return)
    } else if cursor.is_word(BREAK) {
        Some(Opening::Break)
    } else if cursor.is_word(CONTINUE) {
        Some(Opening::Continue)
    } else if cursor.is_word(BEGIN_PPR)
        || cursor.is_word(END_PPR)
        || cursor.is_word(WAIT)
        || cursor.is_word(POST)
    {
        Some(Opening::Marker)
    } else {
        None
    }
}

/// Where no statement may be opened any more.
pub(crate) fn fault_at_start(cursor: &Cursor) -> ParseFault
    ensures { result ≡ read.fault_at_statement cursor.now.tokens.now }
{
    if opening_of(cursor).is_some() || begins(cursor) {
        ParseFault::TooDeep(cursor.place())
    } else {
        cursor.unexpected()
    }
}
