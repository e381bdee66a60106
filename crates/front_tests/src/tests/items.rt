//! Tests: texts, and what is read of them, written as a text.

mod deep;
mod faults;
mod programs;
mod trees;

use crate::tests::notation::{compact, fault_text};
use c_decl::parse;
use c_expr::ParseFault;
use c_token::{Token, tokens};
use c_tree::Tree;
use std::alloc::Global;
use std::process::Abort;
use std::test::Fail;

/// Compares each line `TEXT => WANT` of a table, each between what stands around it, and answers how many there are.
fn check(
    rt: &impl Abort,
    alloc: Global,
    table: &str,
    text_around: (&str, &str),
    want_around: (&str, &str),
) -> Result<u32, Fail> {
    let mut count = 0u32;
    for line in table.lines() {
        let (text, want) = line.split_once(" => ").ok_or("a line without an arrow")?;
        let text = format!(in alloc; "{}{}{}", text_around.0, text, text_around.1)?;
        let want = format!(in alloc; "{}{}{}", want_around.0, want, want_around.1)?;
        let found = shown(rt, alloc, text.as_str())?;
        assert_eq!(rt; found.as_str(), want.as_str(), "at {text}");
        count = count.saturating_add(1);
    }
    Ok(count)
}

/// The items of a text, as `compact` has them, or its fault and the place.
fn shown(rt: &impl Abort, alloc: Global, text: &str) -> Result<String, Fail> {
    match read(rt, alloc, text)? {
        Ok(tree) => compact(alloc, format!(in alloc; "{:?}", tree.items)?),
        Err(fault) => fault_text(alloc, fault),
    }
}

/// What `parse` answers to the tokens of a text.
fn read(rt: &impl Abort, alloc: Global, text: &str) -> Result<Result<Tree, ParseFault>, Fail> {
    assert!(rt; text.len() <= 1048576);
    let found = tokens(alloc, text.as_bytes()).map_err(|_| "a text without tokens")?;
    Ok(parse(alloc, found.as_slice()))
}
