//! Tests: texts, and what is read of them, written as a text.

mod constants;
mod faults;
mod lines;
mod programs;
mod words;

use c_token::{Kind, Token, TokenFault, tokens};
use c_tree::CType;
use std::alloc::Global;
use std::process::Abort;
use std::test::Fail;

/// Compares each line `TEXT => WANT` of a table, and answers how many there are.
fn check(rt: &impl Abort, alloc: Global, table: &str, with_places: bool) -> Result<u32, Fail> {
    let mut count = 0u32;
    for line in table.lines() {
        let (text, want) = line.split_once(" => ").ok_or("a line without an arrow")?;
        let text = with_lines(alloc, text)?;
        let found = shown(rt, alloc, text.as_bytes(), with_places)?;
        assert_eq!(rt; found.as_str(), want, "at {text}");
        count = count.saturating_add(1);
    }
    Ok(count)
}

/// Compares each line of a table with one answer, and answers how many there are.
fn check_each(rt: &impl Abort, alloc: Global, table: &str, want: &str) -> Result<u32, Fail> {
    let mut count = 0u32;
    for line in table.lines() {
        let text = with_lines(alloc, line)?;
        let found = shown(rt, alloc, text.as_bytes(), false)?;
        assert_eq!(rt; found.as_str(), want, "at {text}");
        count = count.saturating_add(1);
    }
    Ok(count)
}

/// A text of a table, where `¶` stands for the end of a line.
fn with_lines(alloc: Global, text: &str) -> Result<String, Fail> {
    Ok(text.replace(alloc, "¶", "\n")?)
}

/// The tokens of a text with their places, as `x@1:1 end@1:2`.
fn places(rt: &impl Abort, alloc: Global, text: &str) -> Result<String, Fail> {
    shown(rt, alloc, text.as_bytes(), true)
}

/// The tokens of a text, as `[int] x = 1 2u '65 ; end`, or its fault and its place, as `BadByte 1:5`.
fn shown(rt: &impl Abort, alloc: Global, text: &[u8], with_places: bool) -> Result<String, Fail> {
    assert!(rt; text.len() <= 1048576);
    match tokens(alloc, text) {
        Ok(tokens) => {
            let mut shown = String::new(alloc);
            for token in &tokens {
                if !shown.is_empty() {
                    shown.push_str(" ")?;
                }
                shown.push_str(&kind_text(alloc, &token.kind)?)?;
                if with_places {
                    let (line, column) = (token.place.line, token.place.column);
                    shown.push_str(&format!(in alloc; "@{line}:{column}")?)?;
                }
            }
            Ok(shown)
        }
        Err(fault) => fault_text(alloc, fault),
    }
}

fn kind_text(alloc: Global, kind: &Kind) -> Result<String, Fail> {
    Ok(match kind {
        Kind::Name(name) => format!(in alloc; "{}", std::str::from_utf8(name.get())?)?,
        Kind::Reserved(word) => format!(in alloc; "[{}]", std::str::from_utf8(word.get())?)?,
        Kind::Number(CType::Int, value) => format!(in alloc; "{value}")?,
        Kind::Number(CType::Unsigned, value) => format!(in alloc; "{value}u")?,
        Kind::Number(_, value) => format!(in alloc; "{value}?")?,
        Kind::Character(value) => format!(in alloc; "'{value}")?,
        Kind::Sign([a, 0, 0]) => format!(in alloc; "{}", char::from(*a))?,
        Kind::Sign([a, b, 0]) => format!(in alloc; "{}{}", char::from(*a), char::from(*b))?,
        Kind::Sign([a, b, c]) => {
            format!(in alloc; "{}{}{}", char::from(*a), char::from(*b), char::from(*c))?
        }
        Kind::End => format!(in alloc; "end")?,
    })
}

fn fault_text(alloc: Global, fault: TokenFault) -> Result<String, Fail> {
    let (name, place) = match fault {
        TokenFault::BadByte(place) => ("BadByte", place),
        TokenFault::OpenComment(place) => ("OpenComment", place),
        TokenFault::BadLiteral(place) => ("BadLiteral", place),
        TokenFault::TooLarge(place) => ("TooLarge", place),
        TokenFault::BadLine(place) => ("BadLine", place),
        TokenFault::OutOfMemory => return Ok(format!(in alloc; "OutOfMemory")?),
    };
    Ok(format!(in alloc; "{name} {}:{}", place.line, place.column)?)
}
