//! Trees and expressions from texts, types from words, rows of tables.

use c_decl::parse;
use c_expr::parse_expr;
use c_token::tokens;
use c_tree::{CType, Expr, Name, OutOfMemory, Tree};
use std::alloc::Global;
use std::process::Abort;
use std::test::Fail;

/// The tree of a text.
pub(crate) fn read_tree(rt: &impl Abort, alloc: Global, text: &str) -> Result<Tree, Fail> {
    assert!(rt; text.len() <= 1048576);
    let found = tokens(alloc, text.as_bytes())?;
    Ok(parse(alloc, found.as_slice())?)
}

/// The expression that a text begins with.
pub(crate) fn read_expr(rt: &impl Abort, alloc: Global, text: &str) -> Result<Expr, Fail> {
    assert!(rt; text.len() <= 1048576);
    let found = tokens(alloc, text.as_bytes())?;
    let (expr, _end) = parse_expr(alloc, &found, 0, 0)?;
    Ok(expr)
}

pub(crate) fn name(alloc: Global, word: &str) -> Result<Name, OutOfMemory> {
    Ok(Name::of(Vec::from_slice(alloc, word.as_bytes())?))
}

/// A type of words: a base, then `*` for a pointer to what is before it, or a number for an array of it.
pub(crate) fn ctype(alloc: Global, text: &str) -> Result<CType, Fail> {
    let mut ty = CType::Int;
    for word in text.split_whitespace() {
        ty = match word {
            "int" => CType::Int,
            "unsigned" => CType::Unsigned,
            "char" => CType::Char,
            "void" => CType::Void,
            "*" => CType::Pointer(Box::new(alloc, ty)?),
            count => CType::Array(Box::new(alloc, ty)?, count.parse::<u32>()?),
        };
    }
    Ok(ty)
}

/// A row of a table, `LEFT : RIGHT`.
pub(crate) fn row(line: &str) -> Result<(&str, &str), Fail> {
    Ok(line.split_once(" : ").ok_or("a row has two parts")?)
}
