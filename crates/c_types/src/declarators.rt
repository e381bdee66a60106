//! The types that declarators declare (C11 6.7.6).

ghost use Rattle.std.specs.Prelude.{◌≡◌, IfOk, map};
ghost use Rattle.c_tree.specs.Accepted.{parameter_shapes};
ghost use Rattle.c_tree.specs.Constant.{value_of};
ghost use Rattle.c_tree.specs.Declarators.{pointers, count_of, sized, pointer_where, parameter_shape};
ghost use Rattle.c_tree.specs.View.{expr_of, exprs_of, param_of, ty_of};

use crate::constants::evaluate;
use c_rules::none_found;
use c_tree::{CType, Expr, OutOfMemory, Param, Ranking};
use std::alloc::Global;

fn point(alloc: Global, to: CType) -> Result<CType, OutOfMemory>
    ensures { IfOk result (λ ty. ty_of ty ≡ pointers 1 (ty_of to)) }
{
    Ok(CType::Pointer(Box::new(alloc, to)?))
}

/// A type with stars before it.
pub fn pointer_to(alloc: Global, base: &CType, stars: u32) -> Result<CType, OutOfMemory>
    ensures { IfOk result (λ ty. ty_of ty ≡ pointers stars (ty_of base.now)) }
{
    let mut ty = base.again(alloc)?;
    for _star in 0..stars {
        ty = point(alloc, ty)?;
    }
    Ok(ty)
}

/// A pointer to a type, where a parameter is written as an array.
fn pointer_where(alloc: Global, array: bool, ty: CType) -> Result<CType, OutOfMemory>
    ensures { IfOk result (λ pointer. ty_of pointer ≡ pointer_where array (ty_of ty)) }
{
    if array { point(alloc, ty) } else { Ok(ty) }
}

/// A parameter's type: `[]` is a pointer (C11 6.7.6.3).
pub fn parameter_type(alloc: Global, p: &Param) -> Result<CType, OutOfMemory>
    ensures { IfOk result (λ ty. ty_of ty ≡ parameter_shape (param_of p.now)) }
{
    let ty = pointer_to(alloc, &p.base, p.stars)?;
    pointer_where(alloc, p.array, ty)
}

/// The types of some parameters.
pub fn parameter_types(alloc: Global, params: &[Param]) -> Result<Vec<CType>, OutOfMemory>
    ensures { IfOk result (λ types. map ty_of types.items
        ≡ parameter_shapes (map param_of params.now)) }
{
    let mut types = Vec::new(alloc);
    for p in params {
        types.push(parameter_type(alloc, p)?)?;
    }
    Ok(types)
}

/// The value of a constant, where it has one.
pub fn value_of(constant: &Expr) -> Option<u32>
    ensures { result ≡ value_of (expr_of constant.now) }
{
    let mut unheeded = none_found(Ranking::ForChecks);
    evaluate(constant, false, None, &mut unheeded).value
}

/// The number of elements that a size gives: 0 where it is no constant.
fn count(size: &Expr) -> u32
    ensures { result ≡ count_of (value_of (expr_of size.now)) }
{
    value_of(size).unwrap_or(0)
}

/// Arrays of a type, the outermost size first.
pub fn array_of(alloc: Global, element: CType, sizes: &[Expr]) -> Result<CType, OutOfMemory>
    ensures { IfOk result (λ ty. ty_of ty ≡ sized (exprs_of sizes.now) (ty_of element)) }
{
    let mut ty = element;
    let mut left = sizes.len();
    while 0 < left {
        left -= 1;
        ty = CType::Array(Box::new(alloc, ty)?, count(&sizes[left]));
    }
    Ok(ty)
}
