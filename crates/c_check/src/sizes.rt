//! Sizes of arrays (C11 6.7.6.2).

ghost use Rattle.std.specs.Prelude.{◌≡◌, ◌&&◌, Some, true, not};
ghost use Rattle.c_tree.specs.Breach.{Adds};
ghost use Rattle.c_tree.specs.Constant.{constant_shape, value_of, constant_breaches};
ghost use Rattle.c_tree.specs.Declarators.{is_below_one, fit_sizes, constants_breaches};
ghost use Rattle.c_tree.specs.Shapes.{is_unsigned};
ghost use Rattle.c_tree.specs.View.{expr_of, exprs_of};
ghost use Rattle.c_types.specs.Env.{scope_of};

use c_tree::{Expr, Least};
use c_types::{Env, evaluate};

fn is_below_one(unsigned: bool, value: Option<u32>) -> bool
    ensures { result ≡ is_below_one unsigned value }
{
    match value {
        None => false,
        Some(n) => n == 0 || !unsigned && 0x8000_0000 <= n,
    }
}

/// Notes what a size breaks as a constant. Whether it isn't below 1.
fn check_size(size: &Expr, env: &Env, least: &mut Least) -> bool
    ensures fits { result ≡ not
        (is_below_one (is_unsigned (constant_shape (expr_of size.now)))
        (value_of (expr_of size.now))) }
    ensures least { Adds least.old least.new
        (constant_breaches (Some (scope_of env.now)) true (expr_of size.now)) }
{
    let known = evaluate(size, true, Some(env), least);
    !is_below_one(known.ty.is_unsigned(), known.value)
}

/// Notes what sizes break as constants. Whether none is below 1.
#[tactic(auto, using(c_tree::proofs::LeastBreach::append_rules))]
pub(crate) fn check_sizes(sizes: &[Expr], env: &Env, least: &mut Least) -> bool
    ensures fits { result ≡ fit_sizes (exprs_of sizes.now) }
    ensures least { Adds least.old least.new
        (constants_breaches (scope_of env.now) (exprs_of sizes.now)) }
{
    let mut all_fit = true;
    for size in sizes {
        let fits = check_size(size, env, least);
        all_fit = all_fit && fits;
    }
    all_fit
}
