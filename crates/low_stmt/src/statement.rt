//! Statements.

ghost use Rattle.std.specs.Prelude.{◌≡◌, ◌≤◌, ◌<◌, ◌*◌, drop, length, IfErr, IfOk, OnOk};
ghost use Rattle.c_tree.specs.View.{stmt_of, stmts_of, ty_of};
ghost use Rattle.c_layout.specs.Frames.{body_locals};
ghost use Rattle.c_semantics.specs.Exec.{behind, named_behind};
ghost use Rattle.low_expr.specs.LabelledNames.{functions_in, HasLabels, HasSameFunctions};
ghost use Rattle.low_stmt.specs.CodeBound.{count_stmt, count_stmts};
ghost use Rattle.low_stmt.specs.StmtReadiness.{AreReadyStmts, IsReadyStmt};
ghost use Rattle.low_stmt.specs.private.Parts.{AreScope, GrowsAtMost, IsKeptRound, IsReadyHere, IsRefusal, IsSameScope, Writes};
ghost use Rattle.low_stmt.specs.private.StmtParts.{scopes, stmt_part, stmts_part, AreTargets};

mod branches;
mod loops;

use crate::plain::{
    begin_if, lower_expr_stmt, lower_jump, lower_marker_stmt, lower_return, lower_vars_stmt,
};
use crate::targets::Targets;
use branches::end_if;
use c_resolve::past;
use c_tree::{CType, Stmt, StmtKind};
use loops::{lower_do, lower_for, lower_while};
use low_expr::{Names, add_nothing};
use low_labels::{Asm, AsmFault};

/// A statement of a function that gives a type. The names that it declares are then in scope.
#[cycle(statement)]
#[tactic(auto, using(c_tree::proofs::ViewLemmas::views))]
fn lower_stmt<'a>(
    asm: &mut Asm,
    s: &Stmt,
    places: &'a [u32],
    to: &Targets,
    gives: &CType,
    names: &mut Names,
    ends: &mut [u32; 256],
) -> Result<&'a [u32], AsmFault>
    requires ready { IsReadyHere names.old (λ defined room top scope.
        IsReadyStmt defined room top (ty_of gives.now) scope places.now (stmt_of s.now)) }
    requires labels { HasLabels names.old (length asm.old.places) }
    requires to { AreTargets (length asm.old.places) to.now }
    ensures lowered { OnOk result (Writes
        (stmt_part (functions_in names.old) (scopes names.old) (ty_of gives.now) places.now to.now
        (stmt_of s.now))
        asm.old asm.new ends.old ends.new) }
    ensures few { OnOk result (GrowsAtMost (32 * count_stmt (stmt_of s.now)) asm.old asm.new) }
    ensures labels { OnOk result (HasLabels names.new (length asm.new.places)) }
    ensures more { OnOk result (length asm.old.places ≤ length asm.new.places) }
    ensures names { OnOk result
        (AreScope names.old names.new (named_behind places.now (stmt_of s.now))) }
    ensures kept { OnOk result (IsKeptRound names.old names.new) }
    ensures functions { OnOk result (HasSameFunctions names.old names.new) }
    ensures rest { IfOk result (λ rest. rest.now ≡ behind (stmt_of s.now) places.now) }
    ensures too_long { IfErr result (IsRefusal (32 * count_stmt (stmt_of s.now)) asm.old) }
{
    match &s.kind {
        StmtKind::Empty => {
            add_nothing(asm)?;
            Ok(places)
        }
        StmtKind::Expr(e) => {
            lower_expr_stmt(asm, e, names)?;
            Ok(places)
        }
        StmtKind::Vars(vars) => {
            lower_vars_stmt(asm, vars, places, names)?;
            Ok(past(places, vars.len()))
        }
        StmtKind::Block(body) => lower_block(asm, body, places, to, gives, names, ends),
        StmtKind::Marker(marker) => {
            lower_marker_stmt(asm, marker, names, ends)?;
            Ok(places)
        }
        StmtKind::If(test, then, other) => {
            let labels = begin_if(asm, test, names)?;
            let rest = lower_inner(asm, then, places, to, gives, names, ends)?;
            end_if(asm, other, &labels, rest, to, gives, names, ends)
        }
        StmtKind::While(test, body) => {
            lower_while(asm, body, test, places, to, gives, names, ends)
        }
        StmtKind::Do(body, test) => lower_do(asm, body, test, places, to, gives, names, ends),
        StmtKind::For(first, test, step, body) => {
            lower_for(asm, first, test, step, body, places, to, gives, names, ends)
        }
        StmtKind::Return(value) => {
            lower_return(asm, value, to.at_return, gives, names)?;
            Ok(places)
        }
        StmtKind::Break => {
            lower_jump(asm, to.at_break)?;
            Ok(places)
        }
        StmtKind::Continue => {
            lower_jump(asm, to.at_continue)?;
            Ok(places)
        }
    }
}

/// The statements of a block of a function that gives a type. The names that they declare are
/// then in scope.
#[cycle(statement)]
pub(crate) fn lower_body<'a>(
    asm: &mut Asm,
    body: &[Stmt],
    places: &'a [u32],
    to: &Targets,
    gives: &CType,
    names: &mut Names,
    ends: &mut [u32; 256],
) -> Result<&'a [u32], AsmFault>
    requires ready { IsReadyHere names.old (λ defined room top scope.
        AreReadyStmts defined room top (ty_of gives.now) scope places.now (stmts_of body.now)) }
    requires labels { HasLabels names.old (length asm.old.places) }
    requires to { AreTargets (length asm.old.places) to.now }
    ensures lowered { OnOk result (Writes
        (stmts_part (functions_in names.old) (scopes names.old) (ty_of gives.now) places.now to.now
        (stmts_of body.now))
        asm.old asm.new ends.old ends.new) }
    ensures few { OnOk result (GrowsAtMost (32 * count_stmts (stmts_of body.now)) asm.old asm.new) }
    ensures labels { OnOk result (HasLabels names.new (length asm.new.places)) }
    ensures more { OnOk result (length asm.old.places ≤ length asm.new.places) }
    ensures kept { OnOk result (IsKeptRound names.old names.new) }
    ensures functions { OnOk result (HasSameFunctions names.old names.new) }
    ensures rest { IfOk result
        (λ rest. rest.now ≡ drop (length (body_locals (stmts_of body.now))) places.now) }
    ensures too_long { IfErr result (IsRefusal (32 * count_stmts (stmts_of body.now)) asm.old) }
{
    let mut rest = places;
    for s in body {
        rest = lower_stmt(asm, s, rest, to, gives, names, ends)?;
    }
    Ok(rest)
}
/// A block, whose names are out of scope after it.
#[cycle(statement)]
fn lower_block<'a>(
    asm: &mut Asm,
    body: &[Stmt],
    places: &'a [u32],
    to: &Targets,
    gives: &CType,
    names: &mut Names,
    ends: &mut [u32; 256],
) -> Result<&'a [u32], AsmFault>
    requires ready { IsReadyHere names.old (λ defined room top scope.
        AreReadyStmts defined room top (ty_of gives.now) scope places.now (stmts_of body.now)) }
    requires labels { HasLabels names.old (length asm.old.places) }
    requires to { AreTargets (length asm.old.places) to.now }
    ensures lowered { OnOk result (Writes
        (stmts_part (functions_in names.old) (scopes names.old) (ty_of gives.now) places.now to.now
        (stmts_of body.now))
        asm.old asm.new ends.old ends.new) }
    ensures few { OnOk result (GrowsAtMost (32 * count_stmts (stmts_of body.now)) asm.old asm.new) }
    ensures labels { OnOk result (HasLabels names.new (length asm.new.places)) }
    ensures more { OnOk result (length asm.old.places ≤ length asm.new.places) }
    ensures same { OnOk result (IsSameScope names.old names.new) }
    ensures functions { OnOk result (HasSameFunctions names.old names.new) }
    ensures rest { IfOk result
        (λ rest. rest.now ≡ drop (length (body_locals (stmts_of body.now))) places.now) }
    ensures too_long { IfErr result (IsRefusal (32 * count_stmts (stmts_of body.now)) asm.old) }
{
    names.enter()?;
    let rest = lower_body(asm, body, places, to, gives, names, ends)?;
    names.leave();
    Ok(rest)
}

/// A statement whose names are out of scope after it.
#[cycle(statement)]
fn lower_inner<'a>(
    asm: &mut Asm,
    s: &Stmt,
    places: &'a [u32],
    to: &Targets,
    gives: &CType,
    names: &mut Names,
    ends: &mut [u32; 256],
) -> Result<&'a [u32], AsmFault>
    requires ready { IsReadyHere names.old (λ defined room top scope.
        IsReadyStmt defined room top (ty_of gives.now) scope places.now (stmt_of s.now)) }
    requires labels { HasLabels names.old (length asm.old.places) }
    requires to { AreTargets (length asm.old.places) to.now }
    ensures lowered { OnOk result (Writes
        (stmt_part (functions_in names.old) (scopes names.old) (ty_of gives.now) places.now to.now
        (stmt_of s.now))
        asm.old asm.new ends.old ends.new) }
    ensures few { OnOk result (GrowsAtMost (32 * count_stmt (stmt_of s.now)) asm.old asm.new) }
    ensures labels { OnOk result (HasLabels names.new (length asm.new.places)) }
    ensures more { OnOk result (length asm.old.places ≤ length asm.new.places) }
    ensures same { OnOk result (IsSameScope names.old names.new) }
    ensures functions { OnOk result (HasSameFunctions names.old names.new) }
    ensures rest { IfOk result (λ rest. rest.now ≡ behind (stmt_of s.now) places.now) }
    ensures too_long { IfErr result (IsRefusal (32 * count_stmt (stmt_of s.now)) asm.old) }
{
    names.enter()?;
    let rest = lower_stmt(asm, s, places, to, gives, names, ends)?;
    names.leave();
    Ok(rest)
}
