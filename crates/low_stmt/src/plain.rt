//! Statements that have no others within them.

ghost use Rattle.std.specs.Prelude.{◌≡◌, ℕ, List, ◌≤◌, ◌<◌, ◌+◌, ◌++◌, ◌*◌, ◌∷◌, [], length, map, option_map, IfErr, IfOk, OnOk};
ghost use Rattle.low_labels.specs.Emission.{emit_all};
ghost use Rattle.low_labels.specs.Operation.{width_of, Jump};
ghost use Rattle.c_tree.specs.declared.place.Place.{Place as At};
ghost use Rattle.c_tree.specs.Stmt as stmt;
ghost use Rattle.c_tree.specs.Ty.{Ty};
ghost use Rattle.c_tree.specs.View.{expr_of, ty_of, var_of};
ghost use Rattle.c_semantics.specs.Exec.{has_init, with_locals_named};
ghost use Rattle.low_expr.specs.Bound.{nodes};
ghost use Rattle.low_expr.specs.CodePieces.{all_do};
ghost use Rattle.low_expr.specs.LabelledNames.{functions_in, HasLabels, HasSameFunctions};
ghost use Rattle.low_expr.specs.Lowering.{fresh_by};
ghost use Rattle.low_expr.specs.Registers.{x0};
ghost use Rattle.low_stmt.specs.declared.targets.Targets.{Targets};
ghost use Rattle.low_stmt.specs.CodeBound.{count_declarators, count_optional};
ghost use Rattle.low_stmt.specs.StmtCode.{counted, counted_where, return_slot};
ghost use Rattle.low_stmt.specs.StmtReadiness.{AreReadyVars, IsReadyIn, IsReadyReturn};
ghost use Rattle.low_stmt.specs.private.Parts.{Adds, AreScope, GrowsAtMost, IsAdded, IsKeptRound, IsReadyHere, IsRefusal, SetsEnds};
ghost use Rattle.low_stmt.specs.private.StmtParts.{begin_part, return_part, scopes, stmt_part};

use crate::declaration::lower_vars;
use crate::marker::lower_marker;
use crate::targets::{Branches, make_branches};
use crate::test::{lower_test, lower_value};
use c_resolve::has_init;
use c_tree::{CType, Expr, Marker, Var};
use low_expr::{A0, Names, T0, X0, add, add_cast, add_nothing, load_slot};
use low_labels::{Asm, AsmFault, Label, Test};
use rv_code::Instr;

/// A counted step, and a jump.
#[tactic(auto, using(low_expr::proofs::Emitting::sequences))]
pub(crate) fn lower_jump(asm: &mut Asm, to: Label) -> Result<(), AsmFault>
    requires { to < length asm.old.places }
    ensures added { OnOk result (asm.new ≡ emit_all (counted ++ Jump x0 to ∷ []) asm.old) }
    ensures too_long { IfErr result (IsRefusal 2 asm.old) }
{
    add_nothing(asm)?;
    asm.jump(X0, to)
}

/// An expression whose value isn't used.
pub(crate) fn lower_expr_stmt(asm: &mut Asm, e: &Expr, names: &Names) -> Result<(), AsmFault>
    requires ready { IsReadyHere names.now
        (λ defined room top scope. IsReadyIn defined room top scope (expr_of e.now)) }
    requires labels { HasLabels names.now (length asm.old.places) }
    ensures lowered { OnOk result ((result : Ty) → (places : List ℕ) → (to : Targets) → (at : At)
        → Adds (stmt_part (functions_in names.now) (scopes names.now) result places to
        (stmt.Expr (expr_of e.now) at)) asm.old asm.new) }
    ensures few { OnOk result (GrowsAtMost (32 * (1 + nodes (expr_of e.now))) asm.old asm.new) }
    ensures labels { OnOk result (HasLabels names.now (length asm.new.places)) }
    ensures more { OnOk result (length asm.old.places ≤ length asm.new.places) }
    ensures too_long { IfErr result (IsRefusal (32 * (1 + nodes (expr_of e.now))) asm.old) }
{
    add_nothing(asm)?;
    lower_value(asm, e, names)?;
    Ok(())
}

/// What is before the first branch of an `if`: a counted step, and the test.
pub(crate) fn begin_if(asm: &mut Asm, test: &Expr, names: &Names) -> Result<Branches, AsmFault>
    requires ready { IsReadyHere names.now
        (λ defined room top scope. IsReadyIn defined room top scope (expr_of test.now)) }
    requires labels { HasLabels names.now (length asm.old.places) }
    ensures other { IfOk result (λ labels. labels.other ≡ length asm.old.places) }
    ensures end { IfOk result (λ labels. labels.end ≡ length asm.old.places + 1) }
    ensures lowered { OnOk result (IsAdded (length asm.old.places) (length asm.old.places + 2)
        (begin_part (functions_in names.now) (scopes names.now) (length asm.old.places)
        (expr_of test.now) (length asm.old.places + 2)) (fresh_by 2 asm.old) asm.new) }
    ensures few { OnOk result (GrowsAtMost (32 * nodes (expr_of test.now) + 4) asm.old asm.new) }
    ensures labels { OnOk result (HasLabels names.now (length asm.new.places)) }
    ensures more { OnOk result (length asm.old.places + 2 ≤ length asm.new.places) }
    ensures too_long { IfErr result (IsRefusal (32 * nodes (expr_of test.now) + 4) asm.old) }
{
    let labels = make_branches(asm)?;
    add_nothing(asm)?;
    lower_test(asm, test, Test::Eq, labels.other, names)?;
    Ok(labels)
}

/// A step that is counted where there is one.
fn add_step_where(asm: &mut Asm, is_counted: bool) -> Result<(), AsmFault>
    ensures added { OnOk result (asm.new ≡ emit_all (counted_where is_counted) asm.old) }
    ensures too_long { IfErr result (IsRefusal (width_of (counted_where is_counted)) asm.old) }
{
    if is_counted { add_nothing(asm) } else { Ok(()) }
}

/// A declaration, whose names are then in scope.
pub(crate) fn lower_vars_stmt(
    asm: &mut Asm,
    vars: &[Var],
    places: &[u32],
    names: &mut Names,
) -> Result<(), AsmFault>
    requires ready { IsReadyHere names.old (λ defined room top scope. AreReadyVars defined room top
        scope places.now (map var_of vars.now)) }
    requires labels { HasLabels names.old (length asm.old.places) }
    ensures lowered { OnOk result ((result : Ty) → (to : Targets) → (at : At)
        → Adds (stmt_part (functions_in names.old) (scopes names.old) result places.now to
        (stmt.Vars (map var_of vars.now) at)) asm.old asm.new) }
    ensures few { OnOk result
        (GrowsAtMost (32 * count_declarators (map var_of vars.now)) asm.old asm.new) }
    ensures labels { OnOk result (HasLabels names.new (length asm.new.places)) }
    ensures more { OnOk result (length asm.old.places ≤ length asm.new.places) }
    ensures names { OnOk result
        (AreScope names.old names.new (with_locals_named places.now (map var_of vars.now))) }
    ensures functions { OnOk result (HasSameFunctions names.old names.new) }
    ensures kept { OnOk result (IsKeptRound names.old names.new) }
    ensures too_long { IfErr result
        (IsRefusal (32 * count_declarators (map var_of vars.now)) asm.old) }
{
    add_step_where(asm, has_init(vars))?;
    lower_vars(asm, vars, places, names)?;
    Ok(())
}

/// A marker.
pub(crate) fn lower_marker_stmt(
    asm: &mut Asm,
    marker: &Marker,
    names: &Names,
    ends: &mut [u32; 256],
) -> Result<(), AsmFault>
    requires labels { HasLabels names.now (length asm.old.places) }
    ensures lowered { OnOk result ((result : Ty) → (places : List ℕ) → (to : Targets) → (at : At)
        → Adds (stmt_part (functions_in names.now) (scopes names.now) result places to
        (stmt.Marker marker.now at)) asm.old asm.new) }
    ensures ends { OnOk result ((result : Ty) → (places : List ℕ) → (to : Targets) → (at : At)
        → SetsEnds (stmt_part (functions_in names.now) (scopes names.now) result places to
        (stmt.Marker marker.now at)) asm.old asm.new ends.old ends.new) }
    ensures few { OnOk result (GrowsAtMost 32 asm.old asm.new) }
    ensures labels { OnOk result (HasLabels names.now (length asm.new.places)) }
    ensures more { OnOk result (length asm.old.places ≤ length asm.new.places) }
    ensures too_long { IfErr result (IsRefusal 32 asm.old) }
{
    add_nothing(asm)?;
    lower_marker(asm, marker, names, ends)?;
    Ok(())
}

/// The value in the first slot, as one of the function's type, into a0.
#[tactic(auto, using(low_expr::proofs::Emitting::sequences))]
fn return_slot(asm: &mut Asm, gives: &CType) -> Result<(), AsmFault>
    ensures added { OnOk result (asm.new
        ≡ emit_all (all_do (return_slot (ty_of gives.now))) asm.old) }
    ensures too_long { IfErr result
        (IsRefusal (width_of (all_do (return_slot (ty_of gives.now)))) asm.old) }
{
    load_slot(asm, T0, 0)?;
    add_cast(asm, gives)?;
    add(
        asm,
        &[Instr::Addi {
            rd: A0,
            rs1: T0,
            imm: 0,
        }],
    )
}

/// The value that a function returns, into a0.
fn lower_returned(
    asm: &mut Asm,
    value: &Option<Expr>,
    gives: &CType,
    names: &Names,
) -> Result<(), AsmFault>
    requires ready { IsReadyHere names.now (λ defined room top scope. IsReadyReturn defined room
        top (ty_of gives.now) scope (option_map expr_of value.now)) }
    requires labels { HasLabels names.now (length asm.old.places) }
    ensures lowered { OnOk result (Adds (return_part (functions_in names.now) (scopes names.now)
        (ty_of gives.now) (option_map expr_of value.now)) asm.old asm.new) }
    ensures few { OnOk result
        (GrowsAtMost (32 * count_optional (option_map expr_of value.now) + 5) asm.old asm.new) }
    ensures labels { OnOk result (HasLabels names.now (length asm.new.places)) }
    ensures more { OnOk result (length asm.old.places ≤ length asm.new.places) }
    ensures too_long { IfErr result
        (IsRefusal (32 * count_optional (option_map expr_of value.now) + 5) asm.old) }
{
    match value {
        None => Ok(()),
        Some(e) => {
            lower_value(asm, e, names)?;
            return_slot(asm, gives)?;
            Ok(())
        }
    }
}

/// A `return`, in a function that gives a type.
pub(crate) fn lower_return(
    asm: &mut Asm,
    value: &Option<Expr>,
    to: Label,
    gives: &CType,
    names: &Names,
) -> Result<(), AsmFault>
    requires ready { IsReadyHere names.now (λ defined room top scope. IsReadyReturn defined room
        top (ty_of gives.now) scope (option_map expr_of value.now)) }
    requires labels { HasLabels names.now (length asm.old.places) }
    requires to { to < length asm.old.places }
    ensures lowered { OnOk result ((places : List ℕ) → (targets : Targets) → (at : At)
        → to ≡ targets.at_return → Adds (stmt_part (functions_in names.now) (scopes names.now)
        (ty_of gives.now) places targets (stmt.Return (option_map expr_of value.now) at))
        asm.old asm.new) }
    ensures few { OnOk result
        (GrowsAtMost (32 * (1 + count_optional (option_map expr_of value.now))) asm.old asm.new) }
    ensures labels { OnOk result (HasLabels names.now (length asm.new.places)) }
    ensures more { OnOk result (length asm.old.places ≤ length asm.new.places) }
    ensures too_long { IfErr result
        (IsRefusal (32 * (1 + count_optional (option_map expr_of value.now))) asm.old) }
{
    add_nothing(asm)?;
    lower_returned(asm, value, gives, names)?;
    asm.jump(X0, to)?;
    Ok(())
}
