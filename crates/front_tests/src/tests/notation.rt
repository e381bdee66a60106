//! Trees and faults as texts.

use c_expr::ParseFault;
use std::alloc::Global;
use std::test::Fail;

/// What is written of a tree, without the names of fields, where `@5` is column 5 of line 1, and names are one small letter.
pub(crate) fn compact(alloc: Global, shown: String) -> Result<String, Fail> {
    let mut shown = shown;
    for column in 1..80 {
        let place = format!(in alloc; "Place {{ line: 1, column: {column} }}")?;
        let short = format!(in alloc; "@{column}")?;
        shown = shown.replace(alloc, place.as_str(), short.as_str())?;
        let last = format!(in alloc; ", place: @{column} }}")?;
        let short = format!(in alloc; "@{column})")?;
        shown = shown.replace(alloc, last.as_str(), short.as_str())?;
    }
    shorter(alloc, shown)
}

/// What is written in full, and what stands for it.
const SHORTER: &str = "\
Name { bytes: [97] } => a
Name { bytes: [98] } => b
Name { bytes: [99] } => c
Name { bytes: [100] } => d
Name { bytes: [101] } => e
Name { bytes: [102] } => f
Name { bytes: [103] } => g
Name { bytes: [104] } => h
Name { bytes: [105] } => i
Name { bytes: [106] } => j
Name { bytes: [107] } => k
Name { bytes: [120] } => x
Expr { kind:  => (
Stmt { kind:  => (
base:  => 
stars:  => 
name:  => 
place:  => 
sizes:  => 
init:  => 
params:  => 
body:  => 
array:  => 
Number(Int,  => Int(";

fn shorter(alloc: Global, text: String) -> Result<String, Fail> {
    let mut shown = text;
    for line in SHORTER.lines() {
        let (long, short) = line.split_once(" => ").ok_or("a line without an arrow")?;
        shown = shown.replace(alloc, long, short)?;
    }
    Ok(shown)
}

/// A fault by its name and place.
pub(crate) fn fault_text(alloc: Global, fault: ParseFault) -> Result<String, Fail> {
    let (name, place) = match fault {
        ParseFault::Unexpected(place) => ("Unexpected", place),
        ParseFault::TooDeep(place) => ("TooDeep", place),
        ParseFault::OutOfMemory => return Ok(format!(in alloc; "OutOfMemory")?),
    };
    Ok(format!(in alloc; "{name} {}:{}", place.line, place.column)?)
}
