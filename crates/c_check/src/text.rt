//! Whole texts (C11 6.9).

ghost use Rattle.std.specs.Prelude.{◌≡◌, [], List, map, IfOk, OnOk, MatchResult};
ghost use Rattle.c_tree.specs.Accepted.{part_breaches, behind_part, parts_breaches, text_breaches, text_fault};
ghost use Rattle.c_tree.specs.Breach.{least_of, nothing_found, Adds};
ghost use Rattle.c_tree.specs.Scope.{empty_scope};
ghost use Rattle.c_tree.specs.Item.{Item as PureItem};
ghost use Rattle.c_tree.specs.View.{item_of, items_of};
ghost use Rattle.c_check.specs.private.Checking.{scope_in, Notes};
ghost use Rattle.c_check.specs.private.Defined.{Defines};
ghost use Rattle.c_check.specs.CheckFaults.{IsFault};

use crate::checker::Checker;
use crate::declarator::check_declarators;
use crate::defined::{Defined, defined_by};
use crate::edge::edges_of;
use crate::fault::{CheckFault, CheckKind, fault_of};
use crate::function::check_function;
use crate::main_function::has_main;
use crate::region::check_edges;
use c_tree::{Breach, Checked, Item, Least, OutOfMemory, Place, Ranking, Storage, Tree};
use std::alloc::Global;

/// Notes what an item breaks, whose names are then in scope, by what the whole text defines and what it did before the item.
fn check_item(
    checker: &mut Checker,
    item: &Item,
    whole: &Defined,
    before: &Defined,
) -> Result<(), OutOfMemory>
    ensures scope { (all : List PureItem) → Defines whole.now all
        → OnOk result (scope_in checker.new ≡ behind_part all (item_of item.now) (scope_in checker.old)) }
    ensures least { (all ps : List PureItem) → Defines whole.now all → Defines before.now ps
        → OnOk result (Notes checker.old checker.new
        (part_breaches all ps (scope_in checker.old) (item_of item.now))) }
{
    match item {
        Item::Vars(_, vars) => check_declarators(checker, Storage::Static, vars),
        Item::Fun(f) => {
            let is_defined = whole.has(&f.name);
            let was_defined = before.has(&f.name);
            check_function(checker, f, is_defined, was_defined)
        }
    }
}

/// Notes what the items of a text break, where no name is in scope yet.
#[tactic(auto, using(c_tree::proofs::LeastBreach::append_rules))]
fn check_items(checker: &mut Checker, items: &[Item]) -> Result<(), OutOfMemory>
    requires { scope_in checker.old ≡ empty_scope }
    ensures { OnOk result (Notes checker.old checker.new
        (parts_breaches (map item_of items.now) [] empty_scope (map item_of items.now))) }
{
    let whole = defined_by(checker.alloc, items)?;
    let mut before = Defined::new(checker.alloc);
    for item in items {
        check_item(checker, item, &whole, &before)?;
        before.pass(item)?;
    }
    Ok(())
}

/// The least breach of a text, but for a `main` that is missing.
#[tactic(auto, using(c_tree::proofs::LeastBreach::append_rules))]
fn least_breach(alloc: Global, tree: &Tree) -> Result<Least, OutOfMemory>
    ensures { IfOk result (λ least. least
        ≡ least_of (nothing_found Ranking.ForChecks) (text_breaches (items_of tree.now))) }
{
    let mut checker = Checker::new(alloc)?;
    check_items(&mut checker, &tree.items)?;
    let edges = edges_of(alloc, &tree.items)?;
    check_edges(alloc, &edges, &mut checker.least)?;
    Ok(checker.least)
}

/// The tree as an accepted one, or why it isn't, by its least breach.
fn finish(tree: Tree, found: Option<Breach>) -> Result<Checked, CheckFault>
    requires { found ≡ (least_of (nothing_found Ranking.ForChecks)
        (text_breaches (items_of tree))).found }
    ensures { MatchResult result (λ checked. checked.tree ≡ tree)
        (λ fault. IsFault fault (text_fault (items_of tree))) }
{
    if let Some(breach) = found {
        return Err(fault_of(breach));
    }
    if !has_main(&tree.items) {
        let start = Place { line: 1, column: 1 };
        return Err(CheckFault::Breach(CheckKind::NoMain, start));
    }
    Ok(Checked::of(tree))
}

/// The tree as one that breaks no rule of the language, or its fault.
pub fn check(alloc: Global, tree: Tree) -> Result<Checked, CheckFault>
    ensures { MatchResult result (λ checked. checked.tree ≡ tree)
        (λ fault. IsFault fault (text_fault (items_of tree))) }
{
    match least_breach(alloc, &tree) {
        Err(_refused) => Err(CheckFault::OutOfMemory),
        Ok(least) => finish(tree, least.found),
    }
}
