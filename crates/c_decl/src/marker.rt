//! Markers.

ghost use Rattle.c_expr.specs.Reads.{Reads, ReadsInPlace};
ghost use Rattle.c_decl.specs.private.StatementReading as read;

use crate::declarator::parse_name;
use crate::reserved::{BEGIN_PPR, END_PPR, POST, WAIT};
use c_expr::punctuator::{COMMA, PARENTHESIS_CLOSE, PARENTHESIS_OPEN, SEMICOLON};
use c_expr::{Cursor, ParseFault};
use c_token::Kind;
use c_tree::{Count, Marker};
use std::alloc::Global;

/// A number.
fn parse_number(cursor: &mut Cursor) -> Result<u32, ParseFault>
    ensures { ReadsInPlace (λ n. n) result cursor.old cursor.new read.number }
{
    match cursor.kind() {
        Some(Kind::Number(_, value)) => {
            cursor.take()?;
            Ok(*value)
        }
        _ => Err(cursor.unexpected()),
    }
}

/// How many bytes a post sends.
fn parse_count(alloc: Global, cursor: &mut Cursor) -> Result<Count, ParseFault>
    ensures { Reads (λ count. count) result cursor.old cursor.new read.count_of }
{
    match cursor.kind() {
        Some(Kind::Number(_, value)) => {
            cursor.take()?;
            Ok(Count::Number(*value))
        }
        _ => {
            let (name, place) = parse_name(alloc, cursor)?;
            Ok(Count::Name(name, place))
        }
    }
}

/// A marker's number, with what stands round it.
fn parse_numbered(cursor: &mut Cursor) -> Result<u32, ParseFault>
    ensures { ReadsInPlace (λ n. n) result cursor.old cursor.new read.numbered }
{
    cursor.take()?;
    cursor.expect(PARENTHESIS_OPEN)?;
    let value = parse_number(cursor)?;
    cursor.expect(PARENTHESIS_CLOSE)?;
    cursor.expect(SEMICOLON)?;
    Ok(value)
}

/// A post, after its word.
fn parse_post(alloc: Global, cursor: &mut Cursor) -> Result<Marker, ParseFault>
    ensures { Reads (λ marker. marker) result cursor.old cursor.new read.post }
{
    cursor.expect(PARENTHESIS_OPEN)?;
    let channel = parse_number(cursor)?;
    cursor.expect(COMMA)?;
    let (sent, place) = parse_name(alloc, cursor)?;
    cursor.expect(COMMA)?;
    let count = parse_count(alloc, cursor)?;
    cursor.expect(PARENTHESIS_CLOSE)?;
    cursor.expect(SEMICOLON)?;
    Ok(Marker::Post(channel, sent, place, count))
}

/// A marker, through its semicolon.
pub(crate) fn parse_marker(alloc: Global, cursor: &mut Cursor) -> Result<Marker, ParseFault>
    ensures { Reads (λ marker. marker) result cursor.old cursor.new read.marker }
{
    if cursor.is_word(BEGIN_PPR) {
        Ok(Marker::Begin(parse_numbered(cursor)?))
    } else if cursor.is_word(END_PPR) {
        Ok(Marker::End(parse_numbered(cursor)?))
    } else if cursor.is_word(WAIT) {
        Ok(Marker::Wait(parse_numbered(cursor)?))
    } else if cursor.is_word(POST) {
        cursor.take()?;
        parse_post(alloc, cursor)
    } else {
        Err(cursor.unexpected())
    }
}
