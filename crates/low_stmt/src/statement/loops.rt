//! Loops.

ghost use Rattle.std.specs.Option.{option_copied};
ghost use Rattle.std.specs.Prelude.{◌≡◌, ◌≤◌, ◌<◌, ◌+◌, ◌*◌, length, option_map, IfErr, IfOk, IfSome, OnOk};
ghost use Rattle.c_tree.specs.declared.place.Place.{Place as At};
ghost use Rattle.c_tree.specs.Stmt as stmt;
ghost use Rattle.c_tree.specs.View.{expr_of, first_of, stmt_of, ty_of};
ghost use Rattle.c_semantics.specs.Exec.{behind};
ghost use Rattle.low_expr.specs.Bound.{nodes};
ghost use Rattle.low_expr.specs.LabelledNames.{functions_in, HasLabels, HasSameFunctions};
ghost use Rattle.low_stmt.specs.CodeBound.{count_first, count_optional, count_stmt};
ghost use Rattle.low_stmt.specs.StmtReadiness.{IsReadyIn, IsReadyStmt};
ghost use Rattle.low_stmt.specs.private.Parts.{GrowsAtMost, IsReadyHere, IsRefusal, IsSameScope, IsWritten, Writes};
ghost use Rattle.low_stmt.specs.private.StmtParts.{loop_part, scopes, stmt_part, AreTargets};

use super::lower_inner;
use crate::declaration::lower_first;
use crate::targets::{Loop, Targets, make_loop};
use crate::test::{lower_optional, lower_optional_test, lower_test};
use c_resolve::{first_count, past};
use c_tree::{CType, Expr, First, Stmt};
use low_expr::{Names, X0, add_nothing};
use low_labels::{Asm, AsmFault, Test};

/// The turns of a loop, whose labels are there. A test or a step may be left out.
#[cycle(statement)]
fn lower_loop<'a>(
    asm: &mut Asm,
    labels: &Loop,
    test: Option<&Expr>,
    step: Option<&Expr>,
    body: &Stmt,
    places: &'a [u32],
    to: &Targets,
    gives: &CType,
    names: &mut Names,
    ends: &mut [u32; 256],
) -> Result<&'a [u32], AsmFault>
    requires ready { IsReadyHere names.old (λ defined room top scope.
        IfSome (option_map expr_of (option_copied test)) (IsReadyIn defined room top scope)
        × IfSome (option_map expr_of (option_copied step)) (IsReadyIn defined room top scope)
        × IsReadyStmt defined room top (ty_of gives.now) scope places.now (stmt_of body.now)) }
    requires labels { HasLabels names.old (length asm.old.places) }
    requires to { AreTargets (length asm.old.places) to.now }
    requires next { labels.now.next ≡ labels.now.turn + 1 }
    requires end { labels.now.end ≡ labels.now.turn + 2 }
    requires there { labels.now.end < length asm.old.places }
    ensures lowered { OnOk result (IsWritten labels.now.turn (labels.now.turn + 3)
        (loop_part (functions_in names.old) (scopes names.old)
        (ty_of gives.now) places.now to.now labels.now.turn
        (option_map expr_of (option_copied test.entry)) (stmt_of body.now)
        (option_map expr_of (option_copied step.entry))
        (length asm.old.places)) asm.old asm.new ends.old ends.new) }
    ensures few { OnOk result
        (GrowsAtMost (32 * (count_optional (option_map expr_of (option_copied test.entry))
        + count_stmt (stmt_of body.now) + count_optional (option_map expr_of (option_copied
        step.entry))) + 5) asm.old asm.new) }
    ensures labels { OnOk result (HasLabels names.new (length asm.new.places)) }
    ensures more { OnOk result (length asm.old.places ≤ length asm.new.places) }
    ensures same { OnOk result (IsSameScope names.old names.new) }
    ensures functions { OnOk result (HasSameFunctions names.old names.new) }
    ensures rest { IfOk result (λ rest. rest.now ≡ behind (stmt_of body.now) places.now) }
    ensures too_long { IfErr result
        (IsRefusal (32 * (count_optional (option_map expr_of (option_copied test.entry))
        + count_stmt (stmt_of body.now) + count_optional (option_map expr_of (option_copied
        step.entry))) + 5) asm.old) }
{
    asm.place(labels.turn);
    lower_optional_test(asm, test, labels.end, names)?;
    add_nothing(asm)?;
    let inner = labels.within(to);
    let rest = lower_inner(asm, body, places, &inner, gives, names, ends)?;
    asm.place(labels.next);
    lower_optional(asm, step, names)?;
    asm.jump(X0, labels.turn)?;
    asm.place(labels.end);
    Ok(rest)
}

/// A `while`.
#[cycle(statement)]
pub(super) fn lower_while<'a>(
    asm: &mut Asm,
    body: &Stmt,
    test: &Expr,
    places: &'a [u32],
    to: &Targets,
    gives: &CType,
    names: &mut Names,
    ends: &mut [u32; 256],
) -> Result<&'a [u32], AsmFault>
    requires ready { IsReadyHere names.old (λ defined room top scope. (at : At) →
        IsReadyStmt defined room top (ty_of gives.now) scope places.now
        (stmt.While (expr_of test.now) (stmt_of body.now) at)) }
    requires labels { HasLabels names.old (length asm.old.places) }
    requires to { AreTargets (length asm.old.places) to.now }
    ensures lowered { OnOk result ((at : At) → Writes
        (stmt_part (functions_in names.old) (scopes names.old) (ty_of gives.now) places.now to.now
        (stmt.While (expr_of test.now) (stmt_of body.now) at))
        asm.old asm.new ends.old ends.new) }
    ensures few { OnOk result
        (GrowsAtMost (32 * (1 + nodes (expr_of test.now) + count_stmt (stmt_of body.now))) asm.old
        asm.new) }
    ensures labels { OnOk result (HasLabels names.new (length asm.new.places)) }
    ensures more { OnOk result (length asm.old.places ≤ length asm.new.places) }
    ensures same { OnOk result (IsSameScope names.old names.new) }
    ensures functions { OnOk result (HasSameFunctions names.old names.new) }
    ensures too_long { IfErr result
        (IsRefusal (32 * (1 + nodes (expr_of test.now) + count_stmt (stmt_of body.now))) asm.old) }
    ensures rest { IfOk result (λ rest. (at : At) → rest.now
        ≡ behind (stmt.While (expr_of test.now) (stmt_of body.now) at) places.now) }
{
    let labels = make_loop(asm)?;
    add_nothing(asm)?;
    lower_loop(
        asm,
        &labels,
        Some(test),
        None,
        body,
        places,
        to,
        gives,
        names,
        ends,
    )
}

/// A `do`.
#[cycle(statement)]
pub(super) fn lower_do<'a>(
    asm: &mut Asm,
    body: &Stmt,
    test: &Expr,
    places: &'a [u32],
    to: &Targets,
    gives: &CType,
    names: &mut Names,
    ends: &mut [u32; 256],
) -> Result<&'a [u32], AsmFault>
    requires ready { IsReadyHere names.old (λ defined room top scope. (at : At) →
        IsReadyStmt defined room top (ty_of gives.now) scope places.now
        (stmt.Do (stmt_of body.now) (expr_of test.now) at)) }
    requires labels { HasLabels names.old (length asm.old.places) }
    requires to { AreTargets (length asm.old.places) to.now }
    ensures lowered { OnOk result ((at : At) → Writes
        (stmt_part (functions_in names.old) (scopes names.old) (ty_of gives.now) places.now to.now
        (stmt.Do (stmt_of body.now) (expr_of test.now) at))
        asm.old asm.new ends.old ends.new) }
    ensures few { OnOk result
        (GrowsAtMost (32 * (1 + count_stmt (stmt_of body.now)
        + nodes (expr_of test.now))) asm.old asm.new) }
    ensures labels { OnOk result (HasLabels names.new (length asm.new.places)) }
    ensures more { OnOk result (length asm.old.places ≤ length asm.new.places) }
    ensures same { OnOk result (IsSameScope names.old names.new) }
    ensures functions { OnOk result (HasSameFunctions names.old names.new) }
    ensures too_long { IfErr result
        (IsRefusal (32 * (1 + count_stmt (stmt_of body.now) + nodes (expr_of test.now))) asm.old) }
    ensures rest { IfOk result (λ rest. (at : At) → rest.now
        ≡ behind (stmt.Do (stmt_of body.now) (expr_of test.now) at) places.now) }
{
    let labels = make_loop(asm)?;
    add_nothing(asm)?;
    asm.place(labels.turn);
    add_nothing(asm)?;
    let inner = labels.within(to);
    let rest = lower_inner(asm, body, places, &inner, gives, names, ends)?;
    asm.place(labels.next);
    lower_test(asm, test, Test::Ne, labels.turn, names)?;
    asm.place(labels.end);
    Ok(rest)
}

/// A `for`, whose names are out of scope after it.
#[cycle(statement)]
pub(super) fn lower_for<'a>(
    asm: &mut Asm,
    first: &First,
    test: &Option<Expr>,
    step: &Option<Expr>,
    body: &Stmt,
    places: &'a [u32],
    to: &Targets,
    gives: &CType,
    names: &mut Names,
    ends: &mut [u32; 256],
) -> Result<&'a [u32], AsmFault>
    requires ready { IsReadyHere names.old (λ defined room top scope. (at : At) →
        IsReadyStmt defined room top (ty_of gives.now) scope places.now
        (stmt.For (first_of first.now) (option_map expr_of test.now)
        (option_map expr_of step.now) (stmt_of body.now) at)) }
    requires labels { HasLabels names.old (length asm.old.places) }
    requires to { AreTargets (length asm.old.places) to.now }
    ensures lowered { OnOk result ((at : At) → Writes
        (stmt_part (functions_in names.old) (scopes names.old) (ty_of gives.now) places.now to.now
        (stmt.For (first_of first.now) (option_map expr_of test.now)
        (option_map expr_of step.now) (stmt_of body.now) at))
        asm.old asm.new ends.old ends.new) }
    ensures few { OnOk result
        (GrowsAtMost (32 * (1 + count_first (first_of first.now)
        + count_optional (option_map expr_of test.now) + count_optional (option_map expr_of
        step.now) + count_stmt (stmt_of body.now))) asm.old asm.new) }
    ensures labels { OnOk result (HasLabels names.new (length asm.new.places)) }
    ensures more { OnOk result (length asm.old.places ≤ length asm.new.places) }
    ensures same { OnOk result (IsSameScope names.old names.new) }
    ensures functions { OnOk result (HasSameFunctions names.old names.new) }
    ensures too_long { IfErr result
        (IsRefusal (32 * (1 + count_first (first_of first.now)
        + count_optional (option_map expr_of test.now) + count_optional (option_map expr_of
        step.now) + count_stmt (stmt_of body.now))) asm.old) }
    ensures rest { IfOk result (λ rest. (at : At) → rest.now
        ≡ behind (stmt.For (first_of first.now) (option_map expr_of test.now)
        (option_map expr_of step.now) (stmt_of body.now) at) places.now) }
{
    let labels = make_loop(asm)?;
    add_nothing(asm)?;
    names.enter()?;
    lower_first(asm, first, places, names)?;
    let inner = past(places, first_count(first));
    let rest = lower_loop(
        asm,
        &labels,
        test.as_ref(),
        step.as_ref(),
        body,
        inner,
        to,
        gives,
        names,
        ends,
    )?;
    names.leave();
    Ok(rest)
}
