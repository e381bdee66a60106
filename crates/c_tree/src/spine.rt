//! The first operands of an expression, each within the one before.

ghost use Rattle.std.specs.Prelude.{◌≡◌, ◌<◌, ◌≤◌, Some, None, map, All, IfOk, MatchOption};
ghost use Rattle.std.specs.Option.{option_copied};
ghost use Rattle.c_tree.specs.declared.tree.Expr.{size-Expr};
ghost use Rattle.c_tree.specs.View.{expr_of};
ghost use Rattle.c_tree.specs.FirstOperand.{first_operand, within};

use crate::OutOfMemory;
use crate::tree::{Expr, ExprKind};
use std::alloc::Global;

/// Expressions, each the first operand of the one before, and the last one's first operand, which has none itself.
#[derive(Drop)]
pub(crate) struct Spine<'a> {
    pub(crate) above: Vec<&'a Expr>,
    pub(crate) end: &'a Expr,
}

/// The first operand of an expression, where it has operands.
#[tactic(auto, using(crate::proofs::ViewLemmas::views))]
pub fn first_operand(e: &Expr) -> Option<&Expr>
    ensures value { MatchOption (option_copied result) (first_operand (expr_of e.now) ≡ None)
        (λ a. first_operand (expr_of e.now) ≡ Some (expr_of a)) }
    ensures smaller { MatchOption (option_copied result) (Unit {0})
        (λ a. size-Expr a < size-Expr e.now) }
{
    match &e.kind {
        ExprKind::Unary(_, a)
        | ExprKind::Step(_, a)
        | ExprKind::Cast(_, a)
        | ExprKind::Binary(_, a, _)
        | ExprKind::Conditional(a, _, _)
        | ExprKind::Assign(_, a, _)
        | ExprKind::Index(a, _) => Some(a),
        ExprKind::Name(_)
        | ExprKind::Number(_, _)
        | ExprKind::Character(_)
        | ExprKind::Eof
        | ExprKind::Call(_, _) => None,
    }
}

impl<'a> Spine<'a> {
    /// An expression, taken apart along its first operands.
    #[tactic(auto, using(crate::proofs::FirstOperandLemmas::spines))]
    pub(crate) fn of(alloc: Global, e: &'a Expr) -> Result<Spine<'a>, OutOfMemory>
        ensures whole { IfOk result
            (λ s. within (map (λ n. expr_of n.now) s.above.items) (expr_of s.end.now)
            ≡ expr_of e.now) }
        ensures ends { IfOk result (λ s. first_operand (expr_of s.end.now) ≡ None) }
        ensures small { IfOk result
            (λ s. (size-Expr s.end.now ≤ size-Expr e.now)
            × All (λ n. size-Expr n.now ≤ size-Expr e.now) s.above.items) }
    {
        let mut above = Vec::new(alloc);
        let mut end = e;
        while let Some(first) = first_operand(end) {
            above.push(end)?;
            end = first;
        }
        Ok(Spine { above, end })
    }
}
