//! Declarations of locals.

ghost use Rattle.std.specs.Prelude.{◌≡◌, ◌++◌, length, map, IfOk, OnOk};
ghost use Rattle.c_tree.specs.Declarators.{declared_shape};
ghost use Rattle.c_tree.specs.View.{first_of, var_of, ty_of};
ghost use Rattle.c_layout.specs.Frames.{beginning_locals};
ghost use Rattle.c_layout.specs.Sizes.{size};
ghost use Rattle.c_resolve.specs.private.Acted.{AreNames, IsInitOf, ArePassedOf, IsBeginningOf, own_at};
ghost use Rattle.c_resolve.specs.DeclaredNames.{IsKept};
ghost use Rattle.c_semantics.specs.Exec.{has_init, first_place, declared_locals, beginning_own, named_beginning, with_local, with_locals_named};
ghost use Rattle.c_semantics.specs.Names.{held};

use crate::action::{Beginning, Begun, Passed};
use crate::expression::resolve;
use crate::kinds::{held_of, size};
use crate::named::Named;
use crate::names::Names;
use crate::places::{first_place, past};
use c_semantics::{Held, Home, Local};
use c_tree::{CType, First, Init, OutOfMemory, Var};
use c_types::{array_of, pointer_to};
use std::alloc::Global;

/// The type that a declarator declares.
pub fn declared_type(alloc: Global, v: &Var) -> Result<CType, OutOfMemory>
    ensures { IfOk result (λ ty. ty_of ty ≡ declared_shape (var_of v.now)) }
{
    let element = pointer_to(alloc, &v.base, v.stars)?;
    array_of(alloc, element, &v.sizes)
}

/// Whether a declarator has an initialiser.
pub fn has_init(vars: &[Var]) -> bool
    ensures { result ≡ has_init (map var_of vars.now) }
{
    for v in vars {
        if v.init.is_some() {
            return true;
        }
    }
    false
}

/// Adds an object, where there is an offset for it.
fn push_local(local: Local, places: &[u32], out: &mut Vec<Local>) -> Result<(), OutOfMemory>
    ensures { OnOk result (out.new.items ≡ out.old.items ++ own_at places.now local) }
{
    match places.first() {
        None => Ok(()),
        Some(_) => {
            out.push(local)?;
            Ok(())
        }
    }
}

/// Declares a local.
fn declare_local(v: &Var, ty: CType, places: &[u32], names: &mut Names) -> Result<(), OutOfMemory>
    requires { ty_of ty ≡ declared_shape (var_of v.now) }
    ensures names { OnOk result
        (AreNames names.old names.new (with_local places.now (var_of v.now))) }
    ensures kept { OnOk result (IsKept names.old names.new) }
{
    match places.first() {
        None => Ok(()),
        Some(place) => names.declare(&v.name, Named::Variable(ty, Home::InFrame(*place))),
    }
}

/// What a declarator does to its object.
fn resolve_init(v: &Var, local: Local, holds: Held, names: &Names) -> Result<Begun, OutOfMemory>
    requires bytes { local.size ≡ size (declared_shape (var_of v.now)) }
    requires holds { holds ≡ held (declared_shape (var_of v.now)) }
    ensures { IfOk result
        (λ begun. IsInitOf names.now local.offset local v.now.place begun (var_of v.now)) }
{
    match &v.init {
        None => Ok(Begun::Blank),
        Some(Init::One(e)) => Ok(Begun::Set(holds, resolve(e, names)?.node)),
        Some(Init::Many(_)) => Ok(Begun::Nothing),
    }
}

/// What a declarator does, whose name is then in scope.
fn resolve_var(v: &Var, places: &[u32], names: &mut Names) -> Result<Passed, OutOfMemory>
    ensures names { OnOk result
        (AreNames names.old names.new (with_local places.now (var_of v.now))) }
    ensures kept { OnOk result (IsKept names.old names.new) }
    ensures local { IfOk result (λ p. p.local
        ≡ record { offset = first_place places.now; size = size (declared_shape (var_of v.now)) }) }
    ensures means { IfOk result
        (λ p. IsInitOf names.new (first_place places.now) p.local p.place p.begun (var_of v.now)) }
{
    let ty = declared_type(names.alloc, v)?;
    let local = Local {
        offset: first_place(places),
        size: size(&ty)?,
    };
    let holds = held_of(&ty);
    declare_local(v, ty, places, names)?;
    let begun = resolve_init(v, local, holds, names)?;
    Ok(Passed {
        local,
        begun,
        place: v.place,
    })
}

/// What declarators do, and their objects.
#[derive(Debug, Drop)]
pub(super) struct Declared {
    pub(super) passed: Vec<Passed>,
    pub(super) own: Vec<Local>,
}

/// What declarators do, whose names are then in scope.
pub(super) fn resolve_vars(
    vars: &[Var],
    places: &[u32],
    names: &mut Names,
) -> Result<Declared, OutOfMemory>
    ensures names { OnOk result
        (AreNames names.old names.new (with_locals_named places.now (map var_of vars.now))) }
    ensures kept { OnOk result (IsKept names.old names.new) }
    ensures own { IfOk result
        (λ d. d.own.items ≡ declared_locals places.now (map var_of vars.now)) }
    ensures means { IfOk result
        (λ d. ArePassedOf names.old places.now d.passed.items (map var_of vars.now)) }
{
    let mut out = Vec::new(names.alloc);
    let mut own = Vec::new(names.alloc);
    let mut rest = places;
    for v in vars {
        let passed = resolve_var(v, rest, names)?;
        push_local(passed.local, rest, &mut own)?;
        out.push(passed)?;
        rest = past(rest, 1);
    }
    Ok(Declared { passed: out, own })
}

/// How many objects a `for` declares itself.
pub fn first_count(first: &First) -> usize
    ensures { result ≡ length (beginning_locals (first_of first.now)) }
{
    match first {
        First::Nothing => 0,
        First::Vars(vars) => vars.len(),
        First::Expr(_) => 0,
    }
}

/// What a `for` begins with, and the objects that it declares itself.
#[derive(Debug, Drop)]
pub(super) struct Begins {
    pub(super) beginning: Beginning,
    pub(super) own: Vec<Local>,
}

/// What a `for` begins with, whose names are then in scope.
pub(super) fn resolve_first(
    first: &First,
    places: &[u32],
    names: &mut Names,
) -> Result<Begins, OutOfMemory>
    ensures names { OnOk result
        (AreNames names.old names.new (named_beginning places.now (first_of first.now))) }
    ensures kept { OnOk result (IsKept names.old names.new) }
    ensures own { IfOk result
        (λ begins. begins.own.items ≡ beginning_own places.now (first_of first.now)) }
    ensures means { IfOk result
        (λ begins. IsBeginningOf names.old places.now begins.beginning (first_of first.now)) }
{
    let own = Vec::new(names.alloc);
    match first {
        First::Nothing => {
            let beginning = Beginning::Nothing;
            Ok(Begins { beginning, own })
        }
        First::Vars(vars) => {
            let declared = resolve_vars(vars, places, names)?;
            Ok(Begins {
                beginning: Beginning::Vars(declared.passed),
                own: declared.own,
            })
        }
        First::Expr(e) => {
            let beginning = Beginning::Expr(resolve(e, names)?.node);
            Ok(Begins { beginning, own })
        }
    }
}
