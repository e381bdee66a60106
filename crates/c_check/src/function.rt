//! Functions (C11 6.7.6.3, 6.9.1).

ghost use Rattle.std.specs.Prelude.{◌≡◌, ◌&&◌, map, option_map, Some, OnOk};
ghost use Rattle.std.specs.Option.{option_copied};
ghost use Rattle.c_tree.specs.Accepted.{result_shape, same_all, again_breaches, parameter_name_breaches, with_name, with_parameter, with_parameters, parameters_breaches, definition_breaches};
ghost use Rattle.c_tree.specs.Breach.{Adds};
ghost use Rattle.c_tree.specs.View.{ty_of, param_of, fun_of};
ghost use Rattle.c_types.specs.Env.{scope_of, known};
ghost use Rattle.c_check.specs.private.Checking.{scope_in, Notes};
ghost use Rattle.c_check.specs.private.Functions.{declared_function, heading_breaches, routine_breaches};

use crate::checker::Checker;
use crate::statement::check_body;
use c_rules::{note, same_type};
use c_tree::{Broken, CType, Fun, Least, MOST_PARAMETERS, Name, OutOfMemory, Param, Place};
use c_types::{Env, Known, parameter_type, parameter_types, pointer_to};

fn same_types(a: &[CType], b: &[CType]) -> bool
    ensures { result ≡ same_all (map ty_of a.now) (map ty_of b.now) }
{
    if a.len() != b.len() {
        return false;
    }
    for i in 0..a.len() {
        if !same_type(&a[i], &b[i]) {
            return false;
        }
    }
    true
}

/// Notes a name that is a variable already, or a function of another type.
fn check_again(
    found: Option<&Known>,
    gives: &CType,
    types: &[CType],
    place: Place,
    least: &mut Least,
)
    ensures { Adds least.old least.new
        (again_breaches (option_map known (option_copied found.entry)) (ty_of gives.now)
        (map ty_of types.now) place) }
{
    match found {
        None => {}
        Some(Known::Object(_)) => note(least, false, Broken::Twice, place),
        Some(
            Known::Function {
                gives: known,
                params,
                ..
            },
        ) => {
            let same = same_type(known, gives) && same_types(params, types);
            note(least, same, Broken::Mismatch, place);
        }
    }
}

/// Notes what a function's heading breaks, whose name is then in scope.
#[tactic(auto, using(c_tree::proofs::LeastBreach::append_rules))]
fn check_heading(
    checker: &mut Checker,
    f: &Fun,
    gives: &CType,
    is_defined: bool,
) -> Result<(), OutOfMemory>
    requires { ty_of gives.now ≡ result_shape (fun_of f.now) }
    ensures scope { OnOk result
        (scope_in checker.new ≡ declared_function is_defined (fun_of f.now) (scope_in checker.old)) }
    ensures least { OnOk result
        (Notes checker.old checker.new (heading_breaches (scope_in checker.old) (fun_of f.now))) }
{
    let types = parameter_types(checker.alloc, &f.params)?;
    check_again(
        checker.env.find_here(&f.name),
        gives,
        &types,
        f.place,
        &mut checker.least,
    );
    let few = f.params.len() <= MOST_PARAMETERS;
    note(&mut checker.least, few, Broken::TooManyParameters, f.place);
    let entry = Known::Function {
        gives: gives.again(checker.alloc)?,
        params: types,
        is_defined,
    };
    checker.env.bind(&f.name, entry)
}

/// Notes a parameter without a name, or with one that another has.
fn check_name(name: &Option<Name>, place: Place, env: &Env, least: &mut Least)
    ensures { Adds least.old least.new (parameter_name_breaches (scope_of env.now) name.now place) }
{
    match name {
        None => note(least, false, Broken::Arguments, place),
        Some(name) => note(least, !env.is_here(name), Broken::Twice, place),
    }
}

fn declare_name(name: &Option<Name>, ty: CType, env: &mut Env) -> Result<(), OutOfMemory>
    ensures { OnOk result (scope_of env.new ≡ with_name name.now (ty_of ty) (scope_of env.old)) }
{
    match name {
        None => Ok(()),
        Some(name) => env.declare(name, ty),
    }
}

fn check_param(checker: &mut Checker, p: &Param) -> Result<(), OutOfMemory>
    ensures scope { OnOk result
        (scope_in checker.new ≡ with_parameter (param_of p.now) (scope_in checker.old)) }
    ensures least { OnOk result
        (Notes checker.old checker.new
        (parameter_name_breaches (scope_in checker.old) p.now.name p.now.place)) }
{
    check_name(&p.name, p.place, &checker.env, &mut checker.least);
    let ty = parameter_type(checker.alloc, p)?;
    declare_name(&p.name, ty, &mut checker.env)
}

/// Notes what the parameters of a definition break, whose names are then in scope.
#[tactic(auto, using(c_tree::proofs::LeastBreach::append_rules))]
fn check_params(checker: &mut Checker, params: &[Param]) -> Result<(), OutOfMemory>
    ensures scope { OnOk result
        (scope_in checker.new ≡ with_parameters (map param_of params.now) (scope_in checker.old)) }
    ensures least { OnOk result
        (Notes checker.old checker.new
        (parameters_breaches (scope_in checker.old) (map param_of params.now))) }
{
    for p in params {
        check_param(checker, p)?;
    }
    Ok(())
}

/// Notes what a definition breaks. The parameters are in the block of the body.
#[tactic(auto, using(c_tree::proofs::LeastBreach::append_rules))]
fn check_fun_body(
    checker: &mut Checker,
    f: &Fun,
    gives: &CType,
    was_defined: bool,
) -> Result<(), OutOfMemory>
    requires { ty_of gives.now ≡ result_shape (fun_of f.now) }
    ensures scope { OnOk result (scope_in checker.new ≡ scope_in checker.old) }
    ensures least { OnOk result
        (Notes checker.old checker.new
        (definition_breaches was_defined (scope_in checker.old) (fun_of f.now)
        (fun_of f.now).body)) }
{
    let Some(body) = &f.body else {
        return Ok(());
    };
    note(&mut checker.least, !was_defined, Broken::Twice, f.place);
    checker.env.enter()?;
    check_params(checker, &f.params)?;
    check_body(checker, body, gives, false)?;
    checker.env.leave();
    Ok(())
}

/// Notes what a function breaks, whose name is then in scope: the text defines it, or not, and did so before, or not.
#[tactic(auto, using(c_tree::proofs::LeastBreach::append_rules))]
pub(crate) fn check_function(
    checker: &mut Checker,
    f: &Fun,
    is_defined: bool,
    was_defined: bool,
) -> Result<(), OutOfMemory>
    ensures scope { OnOk result
        (scope_in checker.new ≡ declared_function is_defined (fun_of f.now) (scope_in checker.old)) }
    ensures least { OnOk result
        (Notes checker.old checker.new
        (routine_breaches is_defined was_defined (scope_in checker.old) (fun_of f.now))) }
{
    let gives = pointer_to(checker.alloc, &f.base, f.stars)?;
    check_heading(checker, f, &gives, is_defined)?;
    check_fun_body(checker, f, &gives, was_defined)
}
