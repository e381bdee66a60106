//! Sizes of objects.

ghost use Rattle.std.specs.Prelude.{◌≡◌, ◌*◌, ◌<◌, ◌≤◌};
ghost use Rattle.c_tree.specs.Constant.{value_of};
ghost use Rattle.c_tree.specs.Declarators.{count_of, sized, element_shape, declared_shape};
ghost use Rattle.c_tree.specs.Ty.{Ty};
ghost use Rattle.c_tree.specs.View.{ty_of, expr_of, exprs_of, var_of};
ghost use Rattle.c_layout.specs.private.Capped.{near};
ghost use Rattle.c_layout.specs.Sizes.{size, alignment, rounded};

use crate::limits::FAR;
use c_rules::none_found;
use c_tree::{CType, Expr, Ranking, Var};
use c_types::evaluate;

/// The least multiple of a unit that isn't below a number.
pub(crate) fn round_up(unit: u32, n: u32) -> u32
    requires positive { 0 < unit }
    requires page { unit ≤ 4096 }
    requires near { n ≤ FAR }
    ensures { result ≡ rounded unit n }
{
    (n + (unit - 1)) / unit * unit
}

fn product(count: u32, size: u32) -> u32
    requires { size ≤ FAR }
    ensures { result ≡ near (count * size) }
{
    let bytes = count as u64 * size as u64;
    bytes.min(FAR as u64) as u32
}

#[tactic(auto, using(crate::proofs::Extents::extents))]
fn type_size(ty: &CType) -> u32
    ensures { result ≡ near (size (ty_of ty.now)) }
{
    match ty {
        CType::Int => 4,
        CType::Unsigned => 4,
        CType::Char => 1,
        CType::Void => 0,
        CType::Pointer(_) => 4,
        CType::Array(of, count) => product(*count, type_size(of)),
    }
}

fn type_alignment(ty: &CType) -> u32
    ensures { result ≡ alignment (ty_of ty.now) }
{
    match ty {
        CType::Int => 4,
        CType::Unsigned => 4,
        CType::Char => 1,
        CType::Void => 1,
        CType::Pointer(_) => 4,
        CType::Array(of, _) => type_alignment(of),
    }
}

/// A number of elements. A size that is no constant counts as 0.
fn count(e: &Expr) -> u32
    ensures { result ≡ count_of (value_of (expr_of e.now)) }
{
    let mut unread = none_found(Ranking::ForTypes);
    match evaluate(e, false, None, &mut unread).value {
        None => 0,
        Some(n) => n,
    }
}

#[tactic(auto, using(crate::proofs::Extents::extents))]
fn element_size(v: &Var) -> u32
    ensures { result ≡ near (size (element_shape (var_of v.now))) }
{
    if v.stars > 0 { 4 } else { type_size(&v.base) }
}

/// The number of elements of arrays within arrays.
fn elements(sizes: &[Expr]) -> u32
    ensures limit { result ≤ FAR }
    ensures bytes { (t : Ty) → near (result * size t) ≡ near (size (sized (exprs_of sizes.now) t)) }
{
    let mut elements: u32 = 1;
    for e in sizes {
        elements = product(count(e), elements);
    }
    elements
}

/// The bytes of a variable.
pub(crate) fn size(v: &Var) -> u32
    ensures { result ≡ near (size (declared_shape (var_of v.now))) }
{
    product(element_size(v), elements(&v.sizes))
}

/// A variable's alignment.
#[tactic(auto, using(crate::proofs::Extents::pointer_sizes, crate::proofs::Extents::array_sizes))]
pub(crate) fn alignment(v: &Var) -> u32
    ensures { result ≡ alignment (declared_shape (var_of v.now)) }
{
    if v.stars > 0 {
        4
    } else {
        type_alignment(&v.base)
    }
}
