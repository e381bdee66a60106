//! First operands, followed in loops: a text can have some 64,000 of them, each within the one before.

ghost use Rattle.std.specs.Prelude.{◌≡◌, ◌<◌, ◌≤◌, Some, None, MatchOption};
ghost use Rattle.std.specs.Option.{option_copied};
ghost use Rattle.c_tree.specs.declared.tree.Expr.{size-Expr};
ghost use Rattle.c_tree.specs.Shapes.{is_integer};
ghost use Rattle.c_tree.specs.Constant.{is_arithmetic};
ghost use Rattle.c_tree.specs.View.{expr_of, ty_of};
ghost use Rattle.c_rules.specs.Spine.{constant_operand, operand, down};

use c_tree::{CType, Expr, ExprKind, Unary, first_operand};

/// How many operands are followed before a walk begins anew.
pub const LIMIT: u32 = 64;

/// Which operands are followed: all first ones, or those of the forms of a constant.
#[derive(Clone, Copy, Debug)]
pub enum Along {
    Operands,
    Constants,
}

pub fn is_arithmetic(op: Unary) -> bool
    ensures { result ≡ is_arithmetic op }
{
    match op {
        Unary::At => false,
        Unary::Address => false,
        _ => true,
    }
}

pub fn is_integer(ty: &CType) -> bool
    ensures { result ≡ is_integer (ty_of ty.now) }
{
    matches!(ty, CType::Int | CType::Unsigned | CType::Char)
}

#[tactic(auto, using(c_tree::proofs::ViewLemmas::views))]
fn constant_operand(e: &Expr) -> Option<&Expr>
    ensures value { MatchOption (option_copied result) (constant_operand (expr_of e.now) ≡ None)
        (λ a. constant_operand (expr_of e.now) ≡ Some (expr_of a)) }
    ensures smaller { MatchOption (option_copied result) (Unit {0})
        (λ a. size-Expr a < size-Expr e.now) }
{
    match &e.kind {
        ExprKind::Unary(op, a) => { if is_arithmetic(*op) { Some(a) } else { None } }
        ExprKind::Cast(to, a) => { if is_integer(to) { Some(a) } else { None } }
        ExprKind::Binary(_, a, _) => Some(a),
        ExprKind::Conditional(c, _, _) => Some(c),
        ExprKind::Name(_)
        | ExprKind::Number(_, _)
        | ExprKind::Character(_)
        | ExprKind::Eof
        | ExprKind::Step(_, _)
        | ExprKind::Assign(_, _, _)
        | ExprKind::Index(_, _)
        | ExprKind::Call(_, _) => None,
    }
}

/// The first operand, where it is followed.
pub fn operand(along: Along, e: &Expr) -> Option<&Expr>
    ensures value { MatchOption (option_copied result) (operand along (expr_of e.now) ≡ None)
        (λ a. operand along (expr_of e.now) ≡ Some (expr_of a)) }
    ensures smaller { MatchOption (option_copied result) (Unit {0})
        (λ a. size-Expr a < size-Expr e.now) }
{
    match along {
        Along::Operands => first_operand(e),
        Along::Constants => constant_operand(e),
    }
}

/// The operand so many steps further down, or the last one.
#[tactic(auto, using(crate::proofs::Descent::steps))]
pub fn descend<'a>(along: Along, e: &'a Expr, count: u32) -> &'a Expr
    ensures reaches { expr_of result.now ≡ down along count (expr_of e.now) }
    ensures small { size-Expr result.now ≤ size-Expr e.now }
{
    let mut end = e;
    for _step in 0..count {
        if let Some(next) = operand(along, end) {
            end = next;
        }
    }
    end
}

/// An operand, and how many steps it is further down.
#[derive(Clone, Copy)]
pub struct Lowest<'a> {
    pub end: &'a Expr,
    pub count: u32,
}

/// The last operand, or the one at the limit.
#[tactic(auto, using(crate::proofs::Descent::steps))]
pub fn follow<'a>(along: Along, e: &'a Expr) -> Lowest<'a>
    ensures reaches { expr_of result.end.now ≡ down along result.count (expr_of e.now) }
    ensures ends { result.count < LIMIT → operand along (expr_of result.end.now) ≡ None }
    ensures small { size-Expr result.end.now ≤ size-Expr e.now }
    ensures smaller { 0 < result.count → size-Expr result.end.now < size-Expr e.now }
{
    let mut end = e;
    let mut count = 0;
    while count < LIMIT {
        let Some(next) = operand(along, end) else {
            return Lowest { end, count };
        };
        end = next;
        count += 1;
    }
    Lowest { end, count }
}
