//! Trees without their markers.

ghost use Rattle.std.specs.Prelude.{◌≡◌, map, option_map, IfOk};
ghost use Rattle.c_tree.specs.Stmt as the_stmt;
ghost use Rattle.c_tree.specs.View.{expr_of, first_of, boxed_stmt_of, else_of, stmt_of, stmts_of, item_of, items_of};
ghost use Rattle.c_tree.specs.Erase.{erased, erased_else, erased_all, erased_part, erased_text};

use crate::OutOfMemory;
use crate::copy::{expr, first, optional, params, vars};
use crate::place::Place;
use crate::tree::{Expr, First, Fun, Item, Stmt, StmtKind, Tree};
use std::alloc::Global;

#[cycle(stmt)]
fn boxed(alloc: Global, s: &Stmt) -> Result<Box<Stmt>, OutOfMemory>
    ensures { IfOk result (λ bare. boxed_stmt_of bare ≡ erased (stmt_of s.now)) }
{
    Ok(Box::new(alloc, stmt(alloc, s)?)?)
}

#[cycle(stmt)]
fn other(alloc: Global, s: &Option<Box<Stmt>>) -> Result<Option<Box<Stmt>>, OutOfMemory>
    ensures { IfOk result (λ bare. else_of boxed_stmt_of bare
        ≡ erased_else (else_of boxed_stmt_of s.now)) }
{
    match s {
        None => Ok(None),
        Some(s) => Ok(Some(boxed(alloc, s)?)),
    }
}

#[cycle(stmt)]
fn from_first(
    alloc: Global,
    from: &First,
    test: &Option<Expr>,
    step: &Option<Expr>,
    body: &Stmt,
    place: Place,
) -> Result<Stmt, OutOfMemory>
    ensures { IfOk result (λ bare. stmt_of bare
        ≡ the_stmt.For (first_of from.now) (option_map expr_of test.now)
        (option_map expr_of step.now) (erased (stmt_of body.now)) place) }
{
    let body = boxed(alloc, body)?;
    let from = first(alloc, from)?;
    let test = optional(alloc, test)?;
    let kind = StmtKind::For(from, test, optional(alloc, step)?, body);
    Ok(Stmt { kind, place })
}

#[cycle(stmt)]
#[tactic(auto, using(crate::proofs::Erasing::rows, crate::proofs::ViewLemmas::views))]
fn stmt(alloc: Global, s: &Stmt) -> Result<Stmt, OutOfMemory>
    ensures { IfOk result (λ bare. stmt_of bare ≡ erased (stmt_of s.now)) }
{
    let place = s.place;
    match &s.kind {
        StmtKind::Empty => {
            let kind = StmtKind::Empty;
            Ok(Stmt { kind, place })
        }
        StmtKind::Marker(_) => {
            let kind = StmtKind::Empty;
            Ok(Stmt { kind, place })
        }
        StmtKind::Expr(e) => {
            let kind = StmtKind::Expr(expr(alloc, e)?);
            Ok(Stmt { kind, place })
        }
        StmtKind::Vars(list) => {
            let kind = StmtKind::Vars(vars(alloc, list)?);
            Ok(Stmt { kind, place })
        }
        StmtKind::Block(body) => {
            let kind = StmtKind::Block(stmts(alloc, body)?);
            Ok(Stmt { kind, place })
        }
        StmtKind::If(test, yes, no) => {
            let no = other(alloc, no)?;
            let yes = boxed(alloc, yes)?;
            let kind = StmtKind::If(expr(alloc, test)?, yes, no);
            Ok(Stmt { kind, place })
        }
        StmtKind::While(test, body) => {
            let body = boxed(alloc, body)?;
            let kind = StmtKind::While(expr(alloc, test)?, body);
            Ok(Stmt { kind, place })
        }
        StmtKind::Do(body, test) => {
            let body = boxed(alloc, body)?;
            let kind = StmtKind::Do(body, expr(alloc, test)?);
            Ok(Stmt { kind, place })
        }
        StmtKind::For(from, test, step, body) => from_first(alloc, from, test, step, body, place),
        StmtKind::Return(value) => {
            let kind = StmtKind::Return(optional(alloc, value)?);
            Ok(Stmt { kind, place })
        }
        StmtKind::Break => {
            let kind = StmtKind::Break;
            Ok(Stmt { kind, place })
        }
        StmtKind::Continue => {
            let kind = StmtKind::Continue;
            Ok(Stmt { kind, place })
        }
    }
}

#[cycle(stmt)]
fn stmts(alloc: Global, list: &[Stmt]) -> Result<Vec<Stmt>, OutOfMemory>
    ensures { IfOk result (λ bare. map stmt_of bare.items ≡ map erased (map stmt_of list.now)) }
{
    let mut bare = Vec::new(alloc);
    for s in list {
        bare.push(stmt(alloc, s)?)?;
    }
    Ok(bare)
}

#[tactic(auto, using(crate::proofs::Erasing::rows))]
fn optional_body(alloc: Global, from: &Option<Vec<Stmt>>) -> Result<Option<Vec<Stmt>>, OutOfMemory>
    ensures { IfOk result (λ bare. option_map (λ body. stmts_of body.items) bare
        ≡ option_map erased_all (option_map (λ body. stmts_of body.items) from.now)) }
{
    match from {
        None => Ok(None),
        Some(list) => Ok(Some(stmts(alloc, list)?)),
    }
}

fn item(alloc: Global, from: &Item) -> Result<Item, OutOfMemory>
    ensures { IfOk result (λ bare. item_of bare ≡ erased_part (item_of from.now)) }
{
    match from {
        Item::Vars(keep, list) => Ok(Item::Vars(*keep, vars(alloc, list)?)),
        Item::Fun(f) => {
            let body = optional_body(alloc, &f.body)?;
            Ok(Item::Fun(Fun {
                base: f.base.again(alloc)?,
                stars: f.stars,
                name: f.name.again(alloc)?,
                place: f.place,
                params: params(alloc, &f.params)?,
                body,
            }))
        }
    }
}

/// The tree with each marker replaced by the empty statement at its place.
pub fn erase(alloc: Global, tree: &Tree) -> Result<Tree, OutOfMemory>
    ensures { IfOk result (λ bare. items_of bare ≡ erased_text (items_of tree.now)) }
{
    let mut items = Vec::new(alloc);
    for i in &tree.items {
        items.push(item(alloc, i)?)?;
    }
    Ok(Tree { items })
}
