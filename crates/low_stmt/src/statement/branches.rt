//! The second branch of an `if`.

ghost use Rattle.std.specs.Prelude.{◌≡◌, ◌≤◌, ◌<◌, ◌+◌, ◌*◌, drop, length, IfErr, IfOk, OnOk};
ghost use Rattle.c_tree.specs.View.{boxed_stmt_of, else_of, ty_of};
ghost use Rattle.c_layout.specs.Frames.{else_locals};
ghost use Rattle.low_expr.specs.LabelledNames.{functions_in, HasLabels, HasSameFunctions};
ghost use Rattle.low_stmt.specs.CodeBound.{count_else};
ghost use Rattle.low_stmt.specs.StmtReadiness.{IsReadyElse};
ghost use Rattle.low_stmt.specs.private.Parts.{GrowsAtMost, IsReadyHere, IsRefusal, IsSameScope, IsWritten, Writes};
ghost use Rattle.low_stmt.specs.private.StmtParts.{else_part, other_part, scopes, AreTargets};

use super::lower_inner;
use crate::targets::{Branches, Targets};
use c_tree::{CType, Stmt};
use low_expr::{Names, X0};
use low_labels::{Asm, AsmFault};

/// The branch of an `if` that may be left out.
#[cycle(statement)]
fn lower_else<'a>(
    asm: &mut Asm,
    other: &Option<Box<Stmt>>,
    places: &'a [u32],
    to: &Targets,
    gives: &CType,
    names: &mut Names,
    ends: &mut [u32; 256],
) -> Result<&'a [u32], AsmFault>
    requires ready { IsReadyHere names.old (λ defined room top scope.
        IsReadyElse defined room top (ty_of gives.now) scope places.now
        (else_of boxed_stmt_of other.now)) }
    requires labels { HasLabels names.old (length asm.old.places) }
    requires to { AreTargets (length asm.old.places) to.now }
    ensures lowered { OnOk result (Writes
        (else_part (functions_in names.old) (scopes names.old) (ty_of gives.now) places.now to.now
        (else_of boxed_stmt_of other.now))
        asm.old asm.new ends.old ends.new) }
    ensures few { OnOk result
        (GrowsAtMost (32 * count_else (else_of boxed_stmt_of other.now)) asm.old asm.new) }
    ensures labels { OnOk result (HasLabels names.new (length asm.new.places)) }
    ensures more { OnOk result (length asm.old.places ≤ length asm.new.places) }
    ensures same { OnOk result (IsSameScope names.old names.new) }
    ensures functions { OnOk result (HasSameFunctions names.old names.new) }
    ensures rest { IfOk result
        (λ rest. rest.now ≡ drop
        (length (else_locals (else_of boxed_stmt_of other.now))) places.now) }
    ensures too_long { IfErr result
        (IsRefusal (32 * count_else (else_of boxed_stmt_of other.now)) asm.old) }
{
    match other {
        None => Ok(places),
        Some(other) => lower_inner(asm, other, places, to, gives, names, ends),
    }
}

/// What follows the first branch of an `if` whose labels are there: a jump past the other one,
/// which may be left out.
#[cycle(statement)]
pub(super) fn end_if<'a>(
    asm: &mut Asm,
    other: &Option<Box<Stmt>>,
    labels: &Branches,
    places: &'a [u32],
    to: &Targets,
    gives: &CType,
    names: &mut Names,
    ends: &mut [u32; 256],
) -> Result<&'a [u32], AsmFault>
    requires ready { IsReadyHere names.old (λ defined room top scope.
        IsReadyElse defined room top (ty_of gives.now) scope places.now
        (else_of boxed_stmt_of other.now)) }
    requires labels { HasLabels names.old (length asm.old.places) }
    requires to { AreTargets (length asm.old.places) to.now }
    requires end { labels.now.end ≡ labels.now.other + 1 }
    requires there { labels.now.end < length asm.old.places }
    ensures lowered { OnOk result (IsWritten labels.now.other (labels.now.other + 2)
        (other_part (functions_in names.old) (scopes names.old) (ty_of gives.now) places.now to.now
        labels.now.other (else_of boxed_stmt_of other.now) (length asm.old.places))
        asm.old asm.new ends.old ends.new) }
    ensures few { OnOk result
        (GrowsAtMost (32 * count_else (else_of boxed_stmt_of other.now) + 1) asm.old asm.new) }
    ensures labels { OnOk result (HasLabels names.new (length asm.new.places)) }
    ensures more { OnOk result (length asm.old.places ≤ length asm.new.places) }
    ensures same { OnOk result (IsSameScope names.old names.new) }
    ensures functions { OnOk result (HasSameFunctions names.old names.new) }
    ensures rest { IfOk result
        (λ rest. rest.now ≡ drop
        (length (else_locals (else_of boxed_stmt_of other.now))) places.now) }
    ensures too_long { IfErr result
        (IsRefusal (32 * count_else (else_of boxed_stmt_of other.now) + 1) asm.old) }
{
    asm.jump(X0, labels.end)?;
    asm.place(labels.other);
    let rest = lower_else(asm, other, places, to, gives, names, ends)?;
    asm.place(labels.end);
    Ok(rest)
}
