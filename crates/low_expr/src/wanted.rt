//! As what an expression is wanted.

ghost use Rattle.std.specs.Prelude.{◌≡◌, ◌≤◌};
ghost use Rattle.c_tree.specs.declared.tree.Expr.{size-Expr};
ghost use Rattle.c_tree.specs.View.{expr_of};
ghost use Rattle.c_rules.specs.Spine.{down};
ghost use Rattle.low_expr.specs.private.Wanting.{wanted_first, wanted_down};

use c_rules::{Along, operand};
use c_tree::{Expr, ExprKind, Unary};

/// As what an expression is wanted: as a value, or as a place, whose address comes into the slot.
#[derive(Clone, Copy, Debug)]
pub(crate) enum Wanted {
    Value,
    Place,
}

impl Wanted {
    /// As what the first operand of an expression is wanted.
    #[tactic(auto, using(c_tree::proofs::ViewLemmas::views))]
    fn of_first(self, e: &Expr) -> Wanted
        ensures { result ≡ wanted_first self (expr_of e.now) }
    {
        match &e.kind {
            ExprKind::Unary(Unary::Address, _) => Wanted::Place,
            ExprKind::Step(_, _) | ExprKind::Assign(_, _, _) => Wanted::Place,
            ExprKind::Unary(_, _) | ExprKind::Cast(_, _) => Wanted::Value,
            ExprKind::Binary(_, _, _) | ExprKind::Conditional(_, _, _) => Wanted::Value,
            ExprKind::Index(_, _) => Wanted::Value,
            ExprKind::Name(_) => self,
            ExprKind::Number(_, _) => self,
            ExprKind::Character(_) => self,
            ExprKind::Eof => self,
            ExprKind::Call(_, _) => self,
        }
    }
}

/// An operand, and as what it is wanted.
#[derive(Clone, Copy)]
pub(crate) struct Operand<'a> {
    pub(crate) expr: &'a Expr,
    pub(crate) wanted: Wanted,
}

/// The operand so many steps further down, or the last one.
#[tactic(auto, using(c_rules::proofs::Descent::steps, crate::proofs::WantedLemmas::wanted_steps))]
pub(crate) fn reach<'a>(e: &'a Expr, wanted: Wanted, count: u32) -> Operand<'a>
    ensures expr { expr_of result.expr.now ≡ down Along.Operands count (expr_of e.now) }
    ensures wanted { result.wanted ≡ wanted_down wanted count (expr_of e.now) }
    ensures small { size-Expr result.expr.now ≤ size-Expr e.now }
{
    let mut expr = e;
    let mut wanted = wanted;
    for _step in 0..count {
        wanted = wanted.of_first(expr);
        if let Some(next) = operand(Along::Operands, expr) {
            expr = next;
        }
    }
    Operand { expr, wanted }
}
