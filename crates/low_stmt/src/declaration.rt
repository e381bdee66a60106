//! Declarations of locals.

ghost use Rattle.std.specs.Prelude.{◌≡◌, ◌≤◌, ◌+◌, ◌++◌, ◌*◌, length, map, IfErr, OnOk};
ghost use Rattle.low_labels.specs.Emission.{emit_all};
ghost use Rattle.low_labels.specs.Operation.{width_of};
ghost use Rattle.c_tree.specs.Declarators.{declared_shape};
ghost use Rattle.c_tree.specs.View.{first_of, var_of, ty_of};
ghost use Rattle.c_semantics.specs.Exec.{first_place, named_beginning, with_local, with_locals_named};
ghost use Rattle.c_semantics.specs.Names.{held};
ghost use Rattle.low_expr.specs.CodePieces.{frame_address, take_slot};
ghost use Rattle.low_expr.specs.LabelledNames.{functions_in, scope_in, HasLabels, HasSameFunctions};
ghost use Rattle.low_expr.specs.Registers.{t0, t2};
ghost use Rattle.low_stmt.specs.CodeBound.{count_first, count_init};
ghost use Rattle.low_stmt.specs.StmtCode.{write_code};
ghost use Rattle.low_stmt.specs.StmtReadiness.{AreReadyVars, IsReadyFirst, IsReadyInit};
ghost use Rattle.low_stmt.specs.private.Parts.{Adds, AreScope, GrowsAtMost, IsKeptRound, IsReadyHere, IsRefusal};
ghost use Rattle.low_stmt.specs.private.StmtParts.{declarators_part, declarators_words, first_part, init_part, scopes};

use crate::test::lower_value;
use c_resolve::{declared_type, first_place, held_of, past};
use c_semantics::Held;
use c_tree::{CType, First, Init, OutOfMemory, Var};
use low_expr::{Names, T0, T2, load_frame_address, load_slot, narrow, write};
use low_labels::{Asm, AsmFault};

/// The value in the first slot into a local.
#[tactic(auto, using(low_expr::proofs::Emitting::sequences))]
fn write_local(asm: &mut Asm, held: Held, place: u32) -> Result<(), AsmFault>
    ensures added { OnOk result (asm.new
        ≡ emit_all (write_code (take_slot t0 0 ++ frame_address t2 place) held) asm.old) }
    ensures too_long { IfErr result (IsRefusal
        (width_of (write_code (take_slot t0 0 ++ frame_address t2 place) held)) asm.old) }
{
    load_slot(asm, T0, 0)?;
    load_frame_address(asm, T2, place)?;
    narrow(asm, held)?;
    write(asm, held)
}

/// What a declarator does to its local.
fn lower_init(
    asm: &mut Asm,
    v: &Var,
    holds: Held,
    place: u32,
    names: &Names,
) -> Result<(), AsmFault>
    requires holds { holds ≡ held (declared_shape (var_of v.now)) }
    requires ready { IsReadyHere names.now
        (λ defined room top scope. IsReadyInit defined room top scope (var_of v.now).init) }
    requires labels { HasLabels names.now (length asm.old.places) }
    ensures lowered { OnOk result (Adds (init_part (functions_in names.now) (scopes names.now)
        place (var_of v.now)) asm.old asm.new) }
    ensures few { OnOk result
        (GrowsAtMost (32 * count_init (var_of v.now).init + 8) asm.old asm.new) }
    ensures labels { OnOk result (HasLabels names.now (length asm.new.places)) }
    ensures more { OnOk result (length asm.old.places ≤ length asm.new.places) }
    ensures too_long { IfErr result (IsRefusal (32 * count_init (var_of v.now).init + 8) asm.old) }
{
    match &v.init {
        None => Ok(()),
        Some(Init::One(e)) => {
            lower_value(asm, e, names)?;
            write_local(asm, holds, place)?;
            Ok(())
        }
        Some(Init::Many(_)) => Ok(()),
    }
}

/// Declares a local, where there is an offset for it.
fn declare_local(v: &Var, ty: CType, places: &[u32], names: &mut Names) -> Result<(), OutOfMemory>
    requires { ty_of ty ≡ declared_shape (var_of v.now) }
    ensures names { OnOk result
        (AreScope names.old names.new (with_local places.now (var_of v.now))) }
    ensures functions { OnOk result (HasSameFunctions names.old names.new) }
    ensures kept { OnOk result (IsKeptRound names.old names.new) }
{
    match places.first() {
        None => Ok(()),
        Some(place) => names.declare(&v.name, ty, *place),
    }
}

/// A declarator, whose name is then in scope.
fn lower_var(asm: &mut Asm, v: &Var, places: &[u32], names: &mut Names) -> Result<(), AsmFault>
    requires ready { IsReadyHere names.old (λ defined room top scope. IsReadyInit defined room top
        (with_local places.now (var_of v.now) scope) (var_of v.now).init) }
    requires labels { HasLabels names.old (length asm.old.places) }
    ensures lowered { OnOk result (Adds (init_part (functions_in names.old)
        (λ ds. with_local places.now (var_of v.now) (scope_in ds names.old))
        (first_place places.now) (var_of v.now)) asm.old asm.new) }
    ensures few { OnOk result
        (GrowsAtMost (32 * count_init (var_of v.now).init + 8) asm.old asm.new) }
    ensures labels { OnOk result (HasLabels names.new (length asm.new.places)) }
    ensures more { OnOk result (length asm.old.places ≤ length asm.new.places) }
    ensures names { OnOk result
        (AreScope names.old names.new (with_local places.now (var_of v.now))) }
    ensures functions { OnOk result (HasSameFunctions names.old names.new) }
    ensures kept { OnOk result (IsKeptRound names.old names.new) }
    ensures too_long { IfErr result (IsRefusal (32 * count_init (var_of v.now).init + 8) asm.old) }
{
    let ty = declared_type(names.alloc(), v)?;
    let holds = held_of(&ty);
    declare_local(v, ty, places, names)?;
    lower_init(asm, v, holds, first_place(places), names)?;
    Ok(())
}

/// Declarators, whose names are then in scope.
pub(crate) fn lower_vars(
    asm: &mut Asm,
    vars: &[Var],
    places: &[u32],
    names: &mut Names,
) -> Result<(), AsmFault>
    requires ready { IsReadyHere names.old (λ defined room top scope. AreReadyVars defined room top
        scope places.now (map var_of vars.now)) }
    requires labels { HasLabels names.old (length asm.old.places) }
    ensures lowered { OnOk result (Adds (declarators_part (functions_in names.old)
        (scopes names.old) places.now (map var_of vars.now)) asm.old asm.new) }
    ensures few { OnOk result
        (GrowsAtMost (declarators_words (map var_of vars.now)) asm.old asm.new) }
    ensures labels { OnOk result (HasLabels names.new (length asm.new.places)) }
    ensures more { OnOk result (length asm.old.places ≤ length asm.new.places) }
    ensures names { OnOk result
        (AreScope names.old names.new (with_locals_named places.now (map var_of vars.now))) }
    ensures functions { OnOk result (HasSameFunctions names.old names.new) }
    ensures kept { OnOk result (IsKeptRound names.old names.new) }
    ensures too_long { IfErr result (IsRefusal (declarators_words (map var_of vars.now)) asm.old) }
{
    let mut rest = places;
    for v in vars {
        lower_var(asm, v, rest, names)?;
        rest = past(rest, 1);
    }
    Ok(())
}

/// What a `for` begins with, whose names are then in scope.
pub(crate) fn lower_first(
    asm: &mut Asm,
    first: &First,
    places: &[u32],
    names: &mut Names,
) -> Result<(), AsmFault>
    requires ready { IsReadyHere names.old (λ defined room top scope. IsReadyFirst defined room top
        scope places.now (first_of first.now)) }
    requires labels { HasLabels names.old (length asm.old.places) }
    ensures lowered { OnOk result (Adds (first_part (functions_in names.old) (scopes names.old)
        places.now (first_of first.now)) asm.old asm.new) }
    ensures few { OnOk result
        (GrowsAtMost (32 * count_first (first_of first.now)) asm.old asm.new) }
    ensures labels { OnOk result (HasLabels names.new (length asm.new.places)) }
    ensures more { OnOk result (length asm.old.places ≤ length asm.new.places) }
    ensures names { OnOk result
        (AreScope names.old names.new (named_beginning places.now (first_of first.now))) }
    ensures functions { OnOk result (HasSameFunctions names.old names.new) }
    ensures kept { OnOk result (IsKeptRound names.old names.new) }
    ensures too_long { IfErr result (IsRefusal (32 * count_first (first_of first.now)) asm.old) }
{
    match first {
        First::Nothing => Ok(()),
        First::Vars(vars) => lower_vars(asm, vars, places, names),
        First::Expr(e) => lower_value(asm, e, names),
    }
}
