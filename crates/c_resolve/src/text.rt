//! Whole texts.

ghost use Rattle.std.specs.Prelude.{◌≡◌, ◌+◌, [], ◌∷◌, ℕ, List, length, map, IfOk, OnOk};
ghost use Rattle.c_tree.specs.Item.{Item as PureItem};
ghost use Rattle.c_tree.specs.View.{var_of, fun_of, item_of, items_of, stmts_of};
ghost use Rattle.c_layout.specs.Laid.{plan};
ghost use Rattle.c_layout.specs.LayoutAnswers.{plan_of};
ghost use Rattle.c_resolve.specs.private.Acted.{AreNames, HasNext, AddsRoutines};
ghost use Rattle.c_resolve.specs.DeclaredNames.{IsSame, numbered, names_in};
ghost use Rattle.c_semantics.specs.Meaning.{definition, main_name, names as known_names, names_of, with_function, with_globals};
ghost use Rattle.c_resolve.specs.Routines.{definitions_of, AreNumbersOf, AreRoutinesOf};

use crate::declaration::declared_type;
use crate::function::{MAIN, resolve_fun};
use crate::named::Named;
use crate::names::Names;
use crate::numbers::{Numbers, number_all};
use crate::places::past;
use crate::routine::{Routine, Routines};
use c_layout::Layout;
use c_semantics::Home;
use c_tree::{Fun, Item, OutOfMemory, Stmt, Tree, Var};
use c_types::{parameter_types, pointer_to};
use std::alloc::Global;

/// The addresses of the globals, in order of declaration.
pub fn global_addresses(alloc: Global, layout: &Layout) -> Result<Vec<u32>, OutOfMemory>
    ensures { IfOk result (λ addresses. addresses.items ≡ (plan_of layout.now).globals) }
{
    let mut out = Vec::new(alloc);
    for item in 0..layout.global_count() {
        let Ok(number) = u32::try_from(item) else {
            return Err(OutOfMemory);
        };
        out.push(layout.global(number))?;
    }
    Ok(out)
}

/// Declares a global.
fn declare_global(v: &Var, places: &[u32], names: &mut Names) -> Result<(), OutOfMemory>
    ensures { OnOk result (AreNames names.old names.new
        (with_globals places.now (var_of v.now ∷ []))) }
{
    match places.first() {
        None => Ok(()),
        Some(place) => {
            let ty = declared_type(names.alloc, v)?;
            names.declare(&v.name, Named::Variable(ty, Home::Fixed(*place)))
        }
    }
}

/// Declares globals.
fn declare_globals(vars: &[Var], places: &[u32], names: &mut Names) -> Result<(), OutOfMemory>
    ensures { OnOk result (AreNames names.old names.new
        (with_globals places.now (map var_of vars.now))) }
{
    let mut rest = places;
    for v in vars {
        declare_global(v, rest, names)?;
        rest = past(rest, 1);
    }
    Ok(())
}

/// Declares a function, with the number of its definition.
fn declare_fun(f: &Fun, numbers: &Numbers, names: &mut Names) -> Result<(), OutOfMemory>
    ensures { OnOk result ((text : List PureItem) → AreNumbersOf numbers.now (definitions_of text) →
        names_in (definitions_of text) names.new
        ≡ with_function text (fun_of f.now) (names_in (definitions_of text) names.old)) }
{
    let gives = pointer_to(names.alloc, &f.base, f.stars)?;
    let types = parameter_types(names.alloc, &f.params)?;
    let number = numbers.find(f.name.get());
    names.declare(&f.name, Named::Routine(gives, types, number))
}

/// Declares what an item does, and gives the addresses behind its globals.
fn declare_item<'a>(
    item: &Item,
    places: &'a [u32],
    numbers: &Numbers,
    names: &mut Names,
) -> Result<&'a [u32], OutOfMemory>
    ensures { IfOk result (λ rest. (text ps : List PureItem)
        → AreNumbersOf numbers.now (definitions_of text) →
        names_of text rest.now ps (names_in (definitions_of text) names.new)
        ≡ names_of text places.now (item_of item.now ∷ ps)
        (names_in (definitions_of text) names.old)) }
{
    match item {
        Item::Vars(_, vars) => {
            declare_globals(vars, places, names)?;
            Ok(past(places, vars.len()))
        }
        Item::Fun(f) => {
            declare_fun(f, numbers, names)?;
            Ok(places)
        }
    }
}

/// The names of a text, in a layout of it.
pub fn text_names(
    alloc: Global,
    tree: &Tree,
    layout: &Layout,
    numbers: &Numbers,
) -> Result<Names, OutOfMemory>
    requires layout { plan_of layout.now ≡ plan (items_of tree.now) }
    requires numbers { AreNumbersOf numbers.now (definitions_of (items_of tree.now)) }
    ensures { IfOk result (λ known. (input : List ℕ)
        → names_in (definitions_of (items_of tree.now)) known
        ≡ known_names (items_of tree.now) input) }
{
    let places = global_addresses(alloc, layout)?;
    let mut names = Names::new(alloc);
    let mut rest = places.as_slice();
    for item in &tree.items {
        rest = declare_item(item, rest, numbers, &mut names)?;
    }
    Ok(names)
}

/// The routine of a definition, which comes next in the order of the text. The names are those of the text.
fn push_definition(
    f: &Fun,
    body: &[Stmt],
    layout: &Layout,
    names: &mut Names,
    out: &mut Vec<Routine>,
) -> Result<(), OutOfMemory>
    requires { HasNext (plan_of layout.now).frames (length out.old.items)
        (record { function = fun_of f.now; body = stmts_of body.now } ∷ []) }
    ensures same { OnOk result (IsSame names.old names.new) }
    ensures count { OnOk result (length out.new.items ≡ length out.old.items + 1) }
    ensures means { OnOk result (AddsRoutines names.old out.old.items out.new.items
        (record { function = fun_of f.now; body = stmts_of body.now } ∷ [])) }
{
    let Ok(number) = u32::try_from(out.len()) else {
        return Err(OutOfMemory);
    };
    let frame = layout.frame(number);
    out.push(resolve_fun(f, body, frame, names)?)?;
    Ok(())
}

/// The routines of the definitions of an item, which come next in the order of the text.
fn push_item(
    item: &Item,
    layout: &Layout,
    names: &mut Names,
    out: &mut Vec<Routine>,
) -> Result<(), OutOfMemory>
    requires { HasNext (plan_of layout.now).frames (length out.old.items)
        (definitions_of (item_of item.now ∷ [])) }
    ensures same { OnOk result (IsSame names.old names.new) }
    ensures count { OnOk result
        (length out.new.items ≡ length out.old.items + length
        (definitions_of (item_of item.now ∷ []))) }
    ensures means { OnOk result (AddsRoutines names.old out.old.items out.new.items
        (definitions_of (item_of item.now ∷ []))) }
{
    match item {
        Item::Vars(_, _) => Ok(()),
        Item::Fun(f) => match &f.body {
            None => Ok(()),
            Some(body) => push_definition(f, body, layout, names, out),
        },
    }
}

/// What the functions of a text do, in its order, and which of them is `main`.
pub fn resolve_text(alloc: Global, tree: &Tree, layout: &Layout) -> Result<Routines, OutOfMemory>
    requires { plan_of layout.now ≡ plan (items_of tree.now) }
    ensures routines { IfOk result (λ text. AreRoutinesOf (items_of tree.now) text.all.items) }
    ensures main { IfOk result (λ text. numbered (definitions_of (items_of tree.now)) text.main
        ≡ definition (items_of tree.now) main_name) }
{
    let numbers = number_all(alloc, &tree.items)?;
    let mut names = text_names(alloc, tree, layout, &numbers)?;
    let mut all = Vec::new(alloc);
    for item in &tree.items {
        push_item(item, layout, &mut names, &mut all)?;
    }
    let main = numbers.find(MAIN);
    Ok(Routines { all, main })
}
