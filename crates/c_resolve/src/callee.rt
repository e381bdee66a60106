//! What calls name.

ghost use Rattle.std.specs.Prelude.{◌≡◌, List, [], Some, true};
ghost use Rattle.c_tree.specs.Scope.{FunctionOf};
ghost use Rattle.c_tree.specs.View.{ty_of};
ghost use Rattle.c_tree.specs.Typing.{called as named, result_of, parameters_of};
ghost use Rattle.c_types.specs.Call.{parameters};
ghost use Rattle.c_rules.specs.Seen.{seen_some};
ghost use Rattle.c_semantics.specs.Eval.{called};
ghost use Rattle.c_semantics.specs.Names.{Definition, types};
ghost use Rattle.c_resolve.specs.Context.{Context};
ghost use Rattle.c_resolve.specs.Nodes.{target_run};
ghost use Rattle.c_resolve.specs.private.Resolved.{scope};
ghost use Rattle.c_resolve.specs.DeclaredNames.{names_in};

use crate::named::Named;
use crate::names::Names;
use crate::node::Target;
use c_rules::{Base, Seen, is_void};
use c_tree::{CType, Callee};
use c_types::Parameters;

/// What a call names.
pub(super) fn target(callee: &Callee, names: &Names) -> Target
    ensures { (context : Context) → target_run context result
        ≡ called context.input context.calls (scope context names.now) callee.now }
{
    match callee {
        Callee::Getchar => Target::Getchar,
        Callee::Putchar => Target::Putchar,
        Callee::Name(name) => match names.find(name) {
            Some(Named::Routine(_, _, Some(number))) => Target::Function(*number),
            _ => Target::Undefined,
        },
    }
}

/// What it takes.
pub fn parameters<'a>(callee: &Callee, names: &'a Names) -> Parameters<'a>
    ensures { (definitions : List Definition)
        → parameters result ≡ parameters_of
        (named (types (names_in definitions names.now)) callee.now) }
{
    match callee {
        Callee::Getchar => Parameters::Listed(&[]),
        Callee::Putchar => Parameters::OneInt,
        Callee::Name(name) => match names.find(name) {
            Some(Named::Routine(_, types, _)) => Parameters::Listed(types.as_slice()),
            _ => Parameters::Listed(&[]),
        },
    }
}

/// The type of its value, where it has one.
pub fn value_type<'a>(callee: &Callee, names: &'a Names) -> Option<Seen<'a>>
    ensures { (definitions : List Definition)
        → seen_some result ≡ result_of (named (types (names_in definitions names.now)) callee.now) }
{
    match callee {
        Callee::Getchar => Some(Seen::Is(Base::Int)),
        Callee::Putchar => Some(Seen::Is(Base::Int)),
        Callee::Name(name) => match names.find(name) {
            Some(Named::Routine(gives, _, _)) => not_void(gives),
            _ => None,
        },
    }
}

fn not_void<'a>(gives: &'a CType) -> Option<Seen<'a>>
    ensures { seen_some result ≡ result_of (Some (FunctionOf (ty_of gives.now) [] true)) }
{
    if is_void(gives) {
        None
    } else {
        Some(Seen::of(gives))
    }
}
