//! Declarators of variables (C11 6.7.6).

ghost use Rattle.std.specs.Prelude.{◌≡◌, OnOk, map};
ghost use Rattle.c_tree.specs.Declarators.{with_declarator, with_declarators, declarator_breaches, declarators_breaches};
ghost use Rattle.c_tree.specs.View.{var_of};
ghost use Rattle.c_check.specs.private.Checking.{scope_in, Notes};

use crate::checker::Checker;
use crate::initialiser::check_init;
use crate::sizes::check_sizes;
use c_rules::note;
use c_tree::{Broken, OutOfMemory, Storage, Var};
use c_types::{array_of, pointer_to};

/// Notes what a declarator breaks, whose name is then in scope.
#[tactic(auto, using(c_tree::proofs::LeastBreach::append_rules))]
fn check_declarator(checker: &mut Checker, storage: Storage, v: &Var) -> Result<(), OutOfMemory>
    ensures scope { OnOk result
        (scope_in checker.new ≡ with_declarator (var_of v.now) (scope_in checker.old)) }
    ensures least { OnOk result
        (Notes checker.old checker.new (declarator_breaches storage (scope_in checker.old) (var_of v.now))) }
{
    let all_fit = check_sizes(&v.sizes, &checker.env, &mut checker.least);
    let is_here = checker.env.is_here(&v.name);
    note(&mut checker.least, !is_here, Broken::Twice, v.place);
    note(&mut checker.least, all_fit, Broken::Mismatch, v.place);
    let element = pointer_to(checker.alloc, &v.base, v.stars)?;
    let ty = array_of(checker.alloc, element, &v.sizes)?;
    checker.env.declare(&v.name, ty.again(checker.alloc)?)?;
    check_init(v, &ty, storage, &checker.env, &mut checker.least);
    Ok(())
}

/// Notes what declarators break, whose names are then in scope.
#[tactic(auto, using(c_tree::proofs::LeastBreach::append_rules))]
pub(crate) fn check_declarators(
    checker: &mut Checker,
    storage: Storage,
    vars: &[Var],
) -> Result<(), OutOfMemory>
    ensures scope { OnOk result
        (scope_in checker.new ≡ with_declarators (map var_of vars.now) (scope_in checker.old)) }
    ensures least { OnOk result
        (Notes checker.old checker.new
        (declarators_breaches storage (scope_in checker.old) (map var_of vars.now))) }
{
    for v in vars {
        check_declarator(checker, storage, v)?;
    }
    Ok(())
}
