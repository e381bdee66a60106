//! How operators are written (C11 6.4.6), and how tightly they bind.

ghost use Rattle.std.specs.Prelude.{◌≡◌};
ghost use Rattle.c_expr.specs.Spelled as spelled;
ghost use Rattle.c_expr.specs.Next.{kind_of};

use crate::cursor::Cursor;
use c_token::Kind;
use c_tree::{Binary, Group, Step, Unary};

/// The assignment operator that the next token is; `Some(None)` is `=`.
pub(crate) fn assign_op(cursor: &Cursor) -> Option<Option<Binary>>
    ensures { result ≡ spelled.assign_op (kind_of cursor.now.tokens.now) }
{
    match cursor.kind()? {
        Kind::Sign([b'=', 0, 0]) => Some(None),
        Kind::Sign([b'*', b'=', 0]) => Some(Some(Binary::Times)),
        Kind::Sign([b'/', b'=', 0]) => Some(Some(Binary::Divide)),
        Kind::Sign([b'%', b'=', 0]) => Some(Some(Binary::Rest)),
        Kind::Sign([b'+', b'=', 0]) => Some(Some(Binary::Plus)),
        Kind::Sign([b'-', b'=', 0]) => Some(Some(Binary::Minus)),
        Kind::Sign([b'<', b'<', b'=']) => Some(Some(Binary::Left)),
        Kind::Sign([b'>', b'>', b'=']) => Some(Some(Binary::Right)),
        Kind::Sign([b'&', b'=', 0]) => Some(Some(Binary::BitAnd)),
        Kind::Sign([b'^', b'=', 0]) => Some(Some(Binary::BitXor)),
        Kind::Sign([b'|', b'=', 0]) => Some(Some(Binary::BitOr)),
        _ => None,
    }
}

/// The operator between two operands that the next token is.
pub(crate) fn binary_op(cursor: &Cursor) -> Option<Binary>
    ensures { result ≡ spelled.binary_op (kind_of cursor.now.tokens.now) }
{
    match cursor.kind()? {
        Kind::Sign([b'|', b'|', 0]) => Some(Binary::Or),
        Kind::Sign([b'&', b'&', 0]) => Some(Binary::And),
        Kind::Sign([b'|', 0, 0]) => Some(Binary::BitOr),
        Kind::Sign([b'^', 0, 0]) => Some(Binary::BitXor),
        Kind::Sign([b'&', 0, 0]) => Some(Binary::BitAnd),
        Kind::Sign([b'=', b'=', 0]) => Some(Binary::Equal),
        Kind::Sign([b'!', b'=', 0]) => Some(Binary::Unequal),
        Kind::Sign([b'<', 0, 0]) => Some(Binary::Less),
        Kind::Sign([b'>', 0, 0]) => Some(Binary::Greater),
        Kind::Sign([b'<', b'=', 0]) => Some(Binary::LessEqual),
        Kind::Sign([b'>', b'=', 0]) => Some(Binary::GreaterEqual),
        Kind::Sign([b'<', b'<', 0]) => Some(Binary::Left),
        Kind::Sign([b'>', b'>', 0]) => Some(Binary::Right),
        Kind::Sign([b'+', 0, 0]) => Some(Binary::Plus),
        Kind::Sign([b'-', 0, 0]) => Some(Binary::Minus),
        Kind::Sign([b'*', 0, 0]) => Some(Binary::Times),
        Kind::Sign([b'/', 0, 0]) => Some(Binary::Divide),
        Kind::Sign([b'%', 0, 0]) => Some(Binary::Rest),
        _ => None,
    }
}

pub(crate) fn rank(operator: Binary) -> u32
    ensures { result ≡ spelled.rank operator }
{
    match operator.group() {
        Group::Or => 10,
        Group::And => 9,
        Group::BitOr => 8,
        Group::BitXor => 7,
        Group::BitAnd => 6,
        Group::Equality => 5,
        Group::Order => 4,
        Group::Shift => 3,
        Group::Sum | Group::Difference => 2,
        Group::Product => 1,
    }
}

/// The operator before its operand that the next token is.
pub(crate) fn unary_op(cursor: &Cursor) -> Option<Unary>
    ensures { result ≡ spelled.unary_op (kind_of cursor.now.tokens.now) }
{
    match cursor.kind()? {
        Kind::Sign([b'+', 0, 0]) => Some(Unary::Plus),
        Kind::Sign([b'-', 0, 0]) => Some(Unary::Minus),
        Kind::Sign([b'!', 0, 0]) => Some(Unary::Not),
        Kind::Sign([b'~', 0, 0]) => Some(Unary::Flip),
        Kind::Sign([b'*', 0, 0]) => Some(Unary::At),
        Kind::Sign([b'&', 0, 0]) => Some(Unary::Address),
        _ => None,
    }
}

/// `++` or `--` before its operand.
pub(crate) fn first_step(cursor: &Cursor) -> Option<Step>
    ensures { result ≡ spelled.first_step (kind_of cursor.now.tokens.now) }
{
    match cursor.kind()? {
        Kind::Sign([b'+', b'+', 0]) => Some(Step::RaiseFirst),
        Kind::Sign([b'-', b'-', 0]) => Some(Step::LowerFirst),
        _ => None,
    }
}

/// `++` or `--` after its operand.
pub(crate) fn last_step(cursor: &Cursor) -> Option<Step>
    ensures { result ≡ spelled.last_step (kind_of cursor.now.tokens.now) }
{
    match cursor.kind()? {
        Kind::Sign([b'+', b'+', 0]) => Some(Step::RaiseLast),
        Kind::Sign([b'-', b'-', 0]) => Some(Step::LowerLast),
        _ => None,
    }
}
