//! The type of an expression, and the value of a constant.

ghost use Rattle.std.specs.Prelude.{◌≡◌, [], true, Some, None, MatchResult};
ghost use Rattle.c_tree.specs.View.{expr_of, ty_of};
ghost use Rattle.c_tree.specs.Breach.{least_of, nothing_found};
ghost use Rattle.c_tree.specs.Breaches.{breaches};
ghost use Rattle.c_tree.specs.Constant.{value_of, constant_breaches};
ghost use Rattle.c_tree.specs.Scope.{Scope};
ghost use Rattle.c_tree.specs.Shapes.{is_integer, promoted};
ghost use Rattle.c_tree.specs.Typing.{type_at};
ghost use Rattle.c_types.specs.Env.{scope_of};
ghost use Rattle.c_types.specs.TypeFaults.{IsFault};

use crate::constants::evaluate;
use crate::env::Env;
use crate::fault::{TypeFault, fault_of};
use crate::typing::walk;
use c_rules::none_found;
use c_tree::{CType, Expr, Ranking, Use};
use std::alloc::Global;

/// The type of an expression whose value is used (C11 6.5), or its least breach.
pub fn type_of(alloc: Global, expr: &Expr, env: &Env) -> Result<CType, TypeFault>
    ensures { MatchResult result
        (λ ty. (type_at (scope_of env.now) (expr_of expr.now) ≡ Some (ty_of ty))
        × (breaches (scope_of env.now) Use.Value (expr_of expr.now) ≡ []))
        (λ fault. IsFault fault (least_of (nothing_found Ranking.ForTypes)
        (breaches (scope_of env.now) Use.Value (expr_of expr.now))).found) }
{
    let mut least = none_found(Ranking::ForTypes);
    let ty = walk(expr, env, Use::Value, &mut least);
    if let Some(breach) = least.found {
        return Err(fault_of(breach));
    }
    match ty {
        None => unreachable!(),
        Some(ty) => match ty.own(alloc) {
            Ok(ty) => Ok(ty),
            Err(_refused) => Err(TypeFault::OutOfMemory),
        },
    }
}

/// The type and the value of a constant (C11 6.6), or the least place of what is none or has an undefined act.
pub fn constant(expr: &Expr) -> Result<(CType, u32), TypeFault>
    ensures { MatchResult result
        (λ known. ((scope : Scope) → type_at scope (expr_of expr.now) ≡ Some (ty_of known.0))
        × (value_of (expr_of expr.now) ≡ Some known.1)
        × (constant_breaches None true (expr_of expr.now) ≡ []))
        (λ fault. IsFault fault (least_of (nothing_found Ranking.ForTypes)
        (constant_breaches None true (expr_of expr.now))).found) }
{
    let mut least = none_found(Ranking::ForTypes);
    let known = evaluate(expr, true, None, &mut least);
    if let Some(breach) = least.found {
        return Err(TypeFault::NotConstant(breach.place));
    }
    match known.value {
        None => unreachable!(),
        Some(value) => Ok((known.ty.own(), value)),
    }
}

/// The type that an integer type is promoted to (C11 6.3.1.1).
pub fn promote(ty: &CType) -> CType
    requires { is_integer (ty_of ty.now) ≡ true }
    ensures { ty_of result ≡ promoted (ty_of ty.now) }
{
    match ty {
        CType::Unsigned => CType::Unsigned,
        _ => CType::Int,
    }
}
