//! Tests of values.

ghost use Rattle.std.specs.Option.{option_copied};
ghost use Rattle.std.specs.Prelude.{◌≡◌, ◌≤◌, ◌<◌, ◌+◌, ◌++◌, ◌*◌, ◌∷◌, [], length, option_map, IfErr, IfSome, OnOk};
ghost use Rattle.low_labels.specs.Operation.{Branch};
ghost use Rattle.low_labels.specs.Emission.{emit_all};
ghost use Rattle.c_tree.specs.View.{expr_of};
ghost use Rattle.low_expr.specs.Bound.{nodes};
ghost use Rattle.low_expr.specs.CodePieces.{all_do, take_slot};
ghost use Rattle.low_expr.specs.Registers.{x0, t0};
ghost use Rattle.low_stmt.specs.CodeBound.{count_optional};
ghost use Rattle.low_expr.specs.LabelledNames.{functions_in, HasLabels};
ghost use Rattle.low_stmt.specs.StmtReadiness.{IsReadyIn};
ghost use Rattle.low_stmt.specs.private.Parts.{Adds, GrowsAtMost, IsReadyHere, IsRefusal};
ghost use Rattle.low_stmt.specs.private.StmtParts.{scopes, value_part, test_part, optional_test_part, optional_part};

use c_tree::Expr;
use low_expr::{Names, T0, X0, load_slot, lower_expr};
use low_labels::{Asm, AsmFault, Label, Test};

/// An expression, whose value comes into the first slot, or isn't used.
pub(crate) fn lower_value(asm: &mut Asm, e: &Expr, names: &Names) -> Result<(), AsmFault>
    requires ready { IsReadyHere names.now
        (λ defined room top scope. IsReadyIn defined room top scope (expr_of e.now)) }
    requires labels { HasLabels names.now (length asm.old.places) }
    ensures lowered { OnOk result
        (Adds (value_part (functions_in names.now) (scopes names.now) (expr_of e.now)) asm.old
        asm.new) }
    ensures few { OnOk result (GrowsAtMost (32 * nodes (expr_of e.now)) asm.old asm.new) }
    ensures labels { OnOk result (HasLabels names.now (length asm.new.places)) }
    ensures more { OnOk result (length asm.old.places ≤ length asm.new.places) }
    ensures too_long { IfErr result (IsRefusal (32 * nodes (expr_of e.now)) asm.old) }
{
    lower_expr(asm, e, names, 0)
}

/// A branch on the value in the first slot, compared with 0.
#[tactic(auto, using(low_expr::proofs::Emitting::sequences))]
fn branch_on_value(asm: &mut Asm, test: Test, to: Label) -> Result<(), AsmFault>
    requires { to < length asm.old.places }
    ensures added { OnOk result (asm.new
        ≡ emit_all (all_do (take_slot t0 0) ++ Branch test t0 x0 to ∷ []) asm.old) }
    ensures too_long { IfErr result (IsRefusal 3 asm.old) }
{
    load_slot(asm, T0, 0)?;
    asm.branch(test, T0, X0, to)
}

/// A test: the code goes on at a label where the comparison of an expression's value with 0 holds.
pub(crate) fn lower_test(
    asm: &mut Asm,
    e: &Expr,
    test: Test,
    to: Label,
    names: &Names,
) -> Result<(), AsmFault>
    requires ready { IsReadyHere names.now
        (λ defined room top scope. IsReadyIn defined room top scope (expr_of e.now)) }
    requires labels { HasLabels names.now (length asm.old.places) }
    requires to { to < length asm.old.places }
    ensures lowered { OnOk result (Adds
        (test_part (functions_in names.now) (scopes names.now) test to (expr_of e.now))
        asm.old asm.new) }
    ensures few { OnOk result (GrowsAtMost (32 * nodes (expr_of e.now) + 3) asm.old asm.new) }
    ensures labels { OnOk result (HasLabels names.now (length asm.new.places)) }
    ensures more { OnOk result (length asm.old.places ≤ length asm.new.places) }
    ensures too_long { IfErr result (IsRefusal (32 * nodes (expr_of e.now) + 3) asm.old) }
{
    lower_value(asm, e, names)?;
    branch_on_value(asm, test, to)?;
    Ok(())
}

/// A test that may be left out, and then holds; else the code goes to a label where the value is 0.
pub(crate) fn lower_optional_test(
    asm: &mut Asm,
    e: Option<&Expr>,
    to: Label,
    names: &Names,
) -> Result<(), AsmFault>
    requires ready { IsReadyHere names.now (λ defined room top scope. IfSome
        (option_map expr_of (option_copied e)) (IsReadyIn defined room top scope)) }
    requires labels { HasLabels names.now (length asm.old.places) }
    requires to { to < length asm.old.places }
    ensures lowered { OnOk result (Adds (optional_test_part (functions_in names.now)
        (scopes names.now) to (option_map expr_of (option_copied e.entry))) asm.old asm.new) }
    ensures few { OnOk result
        (GrowsAtMost (32 * count_optional (option_map expr_of (option_copied e.entry))
        + 3) asm.old asm.new) }
    ensures labels { OnOk result (HasLabels names.now (length asm.new.places)) }
    ensures more { OnOk result (length asm.old.places ≤ length asm.new.places) }
    ensures too_long { IfErr result
        (IsRefusal (32 * count_optional (option_map expr_of (option_copied e.entry)) + 3) asm.old) }
{
    match e {
        None => Ok(()),
        Some(e) => lower_test(asm, e, Test::Eq, to, names),
    }
}

/// An expression that may be left out, whose value isn't used.
pub(crate) fn lower_optional(asm: &mut Asm, e: Option<&Expr>, names: &Names) -> Result<(), AsmFault>
    requires ready { IsReadyHere names.now (λ defined room top scope. IfSome
        (option_map expr_of (option_copied e)) (IsReadyIn defined room top scope)) }
    requires labels { HasLabels names.now (length asm.old.places) }
    ensures lowered { OnOk result (Adds (optional_part (functions_in names.now)
        (scopes names.now) (option_map expr_of (option_copied e.entry))) asm.old asm.new) }
    ensures few { OnOk result
        (GrowsAtMost (32 * count_optional (option_map expr_of (option_copied e.entry))) asm.old
        asm.new) }
    ensures labels { OnOk result (HasLabels names.now (length asm.new.places)) }
    ensures more { OnOk result (length asm.old.places ≤ length asm.new.places) }
    ensures too_long { IfErr result
        (IsRefusal (32 * count_optional (option_map expr_of (option_copied e.entry))) asm.old) }
{
    match e {
        None => Ok(()),
        Some(e) => lower_value(asm, e, names),
    }
}
