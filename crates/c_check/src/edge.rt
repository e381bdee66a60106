//! The edges of regions, in the order of the text.

ghost use Rattle.std.specs.Prelude.{◌≡◌, ◌++◌, ◌∷◌, [], map, option_map, IfOk, OnOk, None};
ghost use Rattle.c_tree.specs.Regions.{edge, edges, else_edges, body_edges, function_edges, text_edges};
ghost use Rattle.c_tree.specs.View.{boxed_stmt_of, else_of, stmt_of, stmts_of, item_of};
ghost use Rattle.c_check.specs.private.Parts.{part_edges};

use c_tree::{Edge, Item, Marker, OutOfMemory, Place, Stmt, StmtKind};
use std::alloc::Global;

/// Adds the edge that a marker is.
fn gather_marker(
    marker: &Marker,
    place: Place,
    block: Option<Place>,
    found: &mut Vec<Edge>,
) -> Result<(), OutOfMemory>
    ensures { OnOk result (found.new.items ≡ found.old.items ++ edge block marker.now place) }
{
    let (begins, number) = match marker {
        Marker::Begin(number) => (true, *number),
        Marker::End(number) => (false, *number),
        Marker::Wait(_) | Marker::Post(_, _, _, _) => return Ok(()),
    };
    found.push(Edge {
        begins,
        number,
        place,
        block,
    })?;
    Ok(())
}

/// Adds the edges of a statement that stands in a block.
#[cycle(gather)]
#[tactic(auto, using(c_tree::proofs::ViewLemmas::views))]
fn gather(s: &Stmt, block: Option<Place>, found: &mut Vec<Edge>) -> Result<(), OutOfMemory>
    ensures { OnOk result (found.new.items ≡ found.old.items ++ edges block (stmt_of s.now)) }
{
    match &s.kind {
        StmtKind::Block(body) => gather_body(body, Some(s.place), found),
        StmtKind::Marker(marker) => gather_marker(marker, s.place, block, found),
        StmtKind::If(_, then, other) => {
            gather(then, None, found)?;
            gather_else(other, found)
        }
        StmtKind::While(_, body) | StmtKind::Do(body, _) | StmtKind::For(_, _, _, body) => {
            gather(body, None, found)
        }
        StmtKind::Empty
        | StmtKind::Expr(_)
        | StmtKind::Vars(_)
        | StmtKind::Return(_)
        | StmtKind::Break
        | StmtKind::Continue => Ok(()),
    }
}

#[cycle(gather)]
fn gather_else(other: &Option<Box<Stmt>>, found: &mut Vec<Edge>) -> Result<(), OutOfMemory>
    ensures { OnOk result (found.new.items
        ≡ found.old.items ++ else_edges (else_of boxed_stmt_of other.now)) }
{
    match other {
        None => Ok(()),
        Some(s) => gather(s, None, found),
    }
}

/// Adds the edges of statements that stand in a block.
#[cycle(gather)]
fn gather_body(
    body: &[Stmt],
    block: Option<Place>,
    found: &mut Vec<Edge>,
) -> Result<(), OutOfMemory>
    ensures { OnOk result (found.new.items
        ≡ found.old.items ++ body_edges block (stmts_of body.now)) }
{
    for s in body {
        gather(s, block, found)?;
    }
    Ok(())
}

/// Adds the edges of a function's body.
fn gather_fun(
    body: &Option<Vec<Stmt>>,
    place: Place,
    found: &mut Vec<Edge>,
) -> Result<(), OutOfMemory>
    ensures { OnOk result (found.new.items
        ≡ found.old.items ++ function_edges place
        (option_map (λ body. stmts_of body.items) body.now)) }
{
    match body {
        None => Ok(()),
        Some(body) => gather_body(body, Some(place), found),
    }
}

fn gather_item(item: &Item, found: &mut Vec<Edge>) -> Result<(), OutOfMemory>
    ensures { OnOk result (found.new.items ≡ found.old.items ++ part_edges (item_of item.now)) }
{
    match item {
        Item::Vars(_, _) => Ok(()),
        Item::Fun(f) => gather_fun(&f.body, f.place, found),
    }
}

/// The edges of a text.
pub(crate) fn edges_of(alloc: Global, items: &[Item]) -> Result<Vec<Edge>, OutOfMemory>
    ensures { IfOk result (λ found. found.items ≡ text_edges (map item_of items.now)) }
{
    let mut found = Vec::new(alloc);
    for item in items {
        gather_item(item, &mut found)?;
    }
    Ok(found)
}
