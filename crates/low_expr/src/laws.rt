//! Laws of the code of expressions.

ghost use Rattle.std.specs.Prelude.{ℕ, ◌*◌, ◌≤◌, List, Option};
ghost use Rattle.c_tree.specs.Expr.{Expr};
ghost use Rattle.c_semantics.specs.Evaluated.{IsEvaluable, IsEvaluableUnused};
ghost use Rattle.c_semantics.specs.Names.{Names, Definition};
ghost use Rattle.low_labels.specs.Operation.{width_of};
ghost use Rattle.low_expr.specs.Bound.{nodes};
ghost use Rattle.low_expr.specs.ExprCode.{expr_code};
ghost use Rattle.low_expr.specs.FittingNames.{NamesFit, HasWords};
ghost use Rattle.low_expr.specs.Readiness.{IsReady};
ghost use Rattle.low_expr.specs.ExprSimulation.{IsSimulated};

/// The code of an expression that is ready does what the expression means, where the code of each
/// function does for calls that begin with fewer steps.
pub fn code_does_what_the_expression_means()
    ensures { (functions : List ℕ → ℕ) (defined : List ℕ → Option Definition) (names : Names)
        (e : Expr) → IsReady defined names e → IsSimulated functions defined names e }
{}

/// An expression that can be evaluated is ready, under names that fit.
pub fn an_evaluable_expression_is_ready()
    ensures value { (defined : List ℕ → Option Definition) (names : Names)
        → NamesFit defined names → (e : Expr) → IsEvaluable names e → HasWords e
        → IsReady defined names e }
    ensures unused { (defined : List ℕ → Option Definition) (names : Names)
        → NamesFit defined names → (e : Expr) → IsEvaluableUnused names e → HasWords e
        → IsReady defined names e }
{}

/// The code has at most 32 words for each node.
pub fn each_node_has_few_words()
    ensures { (functions : List ℕ → ℕ) (defined : List ℕ → Option Definition) (names : Names)
        (e : Expr) (slot label : ℕ) → IsReady defined names e
        → width_of (expr_code functions names e slot label) ≤ 32 * nodes e }
{}
