//! Initialisers (C11 6.7.9).

ghost use Rattle.std.specs.Prelude.{◌≡◌, ◌++◌, Some, None, true};
ghost use Rattle.c_tree.specs.Breach.{unless, Adds};
ghost use Rattle.c_tree.specs.Breaches.{breaches, breaches_in, may_take};
ghost use Rattle.c_tree.specs.Constant.{value_of};
ghost use Rattle.c_tree.specs.Declarators.{element_shape, declared_shape, constants_breaches, takes_constant, are_at_most, are_within, takes_list, global_init_breaches, local_init_breaches, init_breaches};
ghost use Rattle.c_tree.specs.Rules.{is_nought};
ghost use Rattle.c_tree.specs.Shapes.{is_integer};
ghost use Rattle.c_tree.specs.Typing.{type_at};
ghost use Rattle.c_tree.specs.View.{expr_of, exprs_of, init_of, var_of, ty_of};
ghost use Rattle.c_types.specs.Env.{scope_of};

use c_rules::{Seen, may_take, note};
use c_tree::{Broken, CType, Expr, Init, Least, Place, Storage, Use, Var};
use c_types::{Env, evaluate, is_nought, value_of, walk};

/// A global takes a constant.
fn takes_constant(ty: &CType, nought: bool) -> bool
    ensures { result ≡ takes_constant (ty_of ty.now) nought }
{
    let ty = Seen::of(ty);
    ty.is_integer() || ty.is_pointer() && nought
}

fn are_at_most(most: u32, values: &[Expr]) -> bool
    ensures { result ≡ are_at_most most (exprs_of values.now) }
{
    values.len() <= most as usize
}

/// There aren't more values than a size says.
fn are_within(size: &Expr, values: &[Expr]) -> bool
    ensures { result ≡ are_within (value_of (expr_of size.now)) (exprs_of values.now) }
{
    match value_of(size) {
        None => true,
        Some(most) => are_at_most(most, values),
    }
}

/// The elements are integers.
fn is_of_integers(v: &Var) -> bool
    ensures { result ≡ is_integer (element_shape (var_of v.now)) }
{
    v.stars == 0 && Seen::of(&v.base).is_integer()
}

/// A list in braces is for an array of integers in one dimension.
fn takes_list(v: &Var, values: &[Expr]) -> bool
    ensures { result ≡ takes_list (element_shape (var_of v.now)) (var_of v.now).sizes
        (exprs_of values.now) }
{
    match v.sizes.as_slice() {
        [] => false,
        [size] => is_of_integers(v) && are_within(size, values),
        [_, _, ..] => false,
    }
}

/// Notes what values break as constants.
fn check_constants(values: &[Expr], env: &Env, least: &mut Least)
    ensures { Adds least.old least.new
        (constants_breaches (scope_of env.now) (exprs_of values.now)) }
{
    for e in values {
        let _known = evaluate(e, true, Some(env), least);
    }
}

/// Notes what a global is initialised with wrongly.
#[tactic(auto, using(c_tree::proofs::LeastBreach::append_rules))]
fn check_global(v: &Var, init: &Init, ty: &CType, env: &Env, least: &mut Least)
    requires { ty_of ty.now ≡ declared_shape (var_of v.now) }
    ensures { Adds least.old least.new
        (global_init_breaches (scope_of env.now) (var_of v.now) (Some (init_of init.now))) }
{
    match init {
        Init::One(e) => {
            let _known = evaluate(e, true, Some(env), least);
            let right = takes_constant(ty, is_nought(e));
            note(least, right, Broken::Mismatch, v.place);
        }
        Init::Many(values) => {
            check_constants(values, env, least);
            note(least, takes_list(v, values), Broken::Mismatch, v.place);
        }
    }
}

/// Notes what an object of a type is initialised with wrongly, as by an assignment.
#[tactic(auto, using(c_tree::proofs::LeastBreach::append_rules))]
fn check_value(ty: &CType, e: &Expr, place: Place, env: &Env, least: &mut Least)
    ensures { Adds least.old least.new
        (breaches (scope_of env.now) Use.Value (expr_of e.now)
        ++ unless (may_take (ty_of ty.now) (is_nought (expr_of e.now))
        (type_at (scope_of env.now) (expr_of e.now))) Broken.Mismatch place) }
{
    let from = walk(e, env, Use::Value, least);
    let right = may_take(Seen::of(ty), is_nought(e), from);
    note(least, right, Broken::Mismatch, place);
}

/// Notes what values break by themselves.
fn check_values(values: &[Expr], env: &Env, least: &mut Least)
    ensures { Adds least.old least.new (breaches_in (scope_of env.now) (exprs_of values.now)) }
{
    for e in values {
        let _ty = walk(e, env, Use::Value, least);
    }
}

/// Notes what a local is initialised with wrongly.
#[tactic(auto, using(c_tree::proofs::LeastBreach::append_rules))]
fn check_local(v: &Var, init: &Init, ty: &CType, env: &Env, least: &mut Least)
    requires { ty_of ty.now ≡ declared_shape (var_of v.now) }
    ensures { Adds least.old least.new
        (local_init_breaches (scope_of env.now) (var_of v.now) (Some (init_of init.now))) }
{
    match init {
        Init::One(e) => check_value(ty, e, v.place, env, least),
        Init::Many(values) => {
            check_values(values, env, least);
            note(least, false, Broken::Mismatch, v.place);
        }
    }
}

/// Notes what a variable of a type is initialised with wrongly.
pub(crate) fn check_init(v: &Var, ty: &CType, storage: Storage, env: &Env, least: &mut Least)
    requires { ty_of ty.now ≡ declared_shape (var_of v.now) }
    ensures { Adds least.old least.new (init_breaches storage (scope_of env.now) (var_of v.now)) }
{
    let Some(init) = &v.init else {
        return;
    };
    match storage {
        Storage::Static => check_global(v, init, ty, env, least),
        Storage::Automatic => check_local(v, init, ty, env, least),
    }
}
