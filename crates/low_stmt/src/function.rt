//! Functions.

ghost use Rattle.std.specs.Prelude.{◌≡◌, ◌≤◌, ◌<◌, ◌+◌, ◌*◌, ◌^◌, length, map, IfErr, OnOk};
ghost use Rattle.low_labels.specs.declared.fault.AsmFault.TheVariants.{CodeTooLong};
ghost use Rattle.low_labels.specs.Closed.{place_in};
ghost use Rattle.low_labels.specs.Emission.{IsTooLong};
ghost use Rattle.c_tree.specs.Accepted.{result_shape};
ghost use Rattle.c_tree.specs.Declarators.{parameter_shape};
ghost use Rattle.c_tree.specs.View.{fun_of, param_of, stmts_of};
ghost use Rattle.c_layout.specs.LayoutAnswers.{planned_of};
ghost use Rattle.c_resolve.specs.DeclaredNames.{blocks_in};
ghost use Rattle.c_semantics.specs.Meaning.{with_parameter, with_parameters};
ghost use Rattle.low_expr.specs.LabelledNames.{functions_in, HasLabels, HasSameFunctions};
ghost use Rattle.low_stmt.specs.CodeBound.{count_body, count_stmts};
ghost use Rattle.low_stmt.specs.FunLowering.{IsFrameOf, IsLoweredFun, IsReadyFunIn};
ghost use Rattle.low_stmt.specs.RegionEnds.{ends_in_body, with_ends};
ghost use Rattle.low_stmt.specs.private.Parts.{AreScope, GrowsAtMost, IsKeptRound, IsRefusal, IsSameScope, Writes};
ghost use Rattle.low_stmt.specs.private.StmtParts.{fun_part, IsReadyBody, inner_scope, own_places, scopes, stmts_part, AreTargets};

use crate::frame_code::{end_fun, enter, pass_arguments};
use crate::statement::lower_body;
use crate::targets::{Targets, make_exits};
use c_layout::Frame;
use c_resolve::{is_main, past};
use c_tree::{Fun, OutOfMemory, Param, Stmt};
use c_types::{parameter_type, pointer_to};
use low_expr::Names;
use low_labels::{Asm, AsmFault};

/// Declares a parameter, where it has a name.
fn declare_param(p: &Param, places: &[u32], names: &mut Names) -> Result<(), OutOfMemory>
    ensures names { OnOk result (AreScope names.old names.new
        (with_parameter places.now (parameter_shape (param_of p.now)) p.now.name)) }
    ensures functions { OnOk result (HasSameFunctions names.old names.new) }
    ensures kept { OnOk result (IsKeptRound names.old names.new) }
{
    let Some(place) = places.first() else {
        return Ok(());
    };
    match &p.name {
        None => Ok(()),
        Some(name) => {
            let ty = parameter_type(names.alloc(), p)?;
            names.declare(name, ty, *place)
        }
    }
}

/// Declares parameters.
fn declare_params(params: &[Param], places: &[u32], names: &mut Names) -> Result<(), OutOfMemory>
    ensures names { OnOk result
        (AreScope names.old names.new (with_parameters places.now (map param_of params.now))) }
    ensures functions { OnOk result (HasSameFunctions names.old names.new) }
    ensures kept { OnOk result (IsKeptRound names.old names.new) }
{
    let mut rest = places;
    for p in params {
        declare_param(p, rest, names)?;
        rest = past(rest, 1);
    }
    Ok(())
}

/// The body of a function, with its parameters in scope, which are out of scope after it.
fn lower_inside(
    asm: &mut Asm,
    fun: &Fun,
    body: &[Stmt],
    frame: &Frame,
    to: &Targets,
    names: &mut Names,
    ends: &mut [u32; 256],
) -> Result<(), AsmFault>
    requires ready { IsReadyBody names.old (fun_of fun.now) (planned_of frame.now)
        (stmts_of body.now) }
    requires labels { HasLabels names.old (length asm.old.places) }
    requires to { AreTargets (length asm.old.places) to.now }
    ensures lowered { OnOk result (Writes (stmts_part (functions_in names.old)
        (inner_scope (functions_in names.old) (scopes names.old) (fun_of fun.now)
        (planned_of frame.now)) (result_shape (fun_of fun.now))
        (own_places (functions_in names.old) (scopes names.old) (fun_of fun.now)
        (planned_of frame.now)) to.now (stmts_of body.now)) asm.old asm.new ends.old ends.new) }
    ensures few { OnOk result (GrowsAtMost (32 * count_stmts (stmts_of body.now)) asm.old asm.new) }
    ensures more { OnOk result (length asm.old.places ≤ length asm.new.places) }
    ensures same { OnOk result (IsSameScope names.old names.new) }
    ensures functions { OnOk result (HasSameFunctions names.old names.new) }
    ensures too_long { IfErr result (IsRefusal (32 * count_stmts (stmts_of body.now)) asm.old) }
{
    names.enter()?;
    declare_params(&fun.params, &frame.places, names)?;
    let gives = pointer_to(names.alloc(), &fun.base, fun.stars)?;
    let own = past(&frame.places, fun.params.len());
    lower_body(asm, body, own, to, &gives, names, ends)?;
    names.leave();
    Ok(())
}

/// A function without its label.
fn lower_whole(
    asm: &mut Asm,
    fun: &Fun,
    body: &[Stmt],
    frame: &Frame,
    names: &mut Names,
    ends: &mut [u32; 256],
) -> Result<(), AsmFault>
    requires ready { IsReadyBody names.old (fun_of fun.now) (planned_of frame.now)
        (stmts_of body.now) }
    requires labels { HasLabels names.old (length asm.old.places) }
    requires few { length (fun_of fun.now).parameters ≤ 8 }
    requires small { (planned_of frame.now).size ≤ 2 ^ 16 }
    ensures lowered { OnOk result (Writes (fun_part (functions_in names.old) (scopes names.old)
        (fun_of fun.now) (planned_of frame.now) (stmts_of body.now))
        asm.old asm.new ends.old ends.new) }
    ensures same { OnOk result (IsSameScope names.old names.new) }
    ensures functions { OnOk result (HasSameFunctions names.old names.new) }
    ensures too_long { IfErr result
        (IsRefusal (32 * (1 + length (fun_of fun.now).parameters
        + count_stmts (stmts_of body.now))) asm.old) }
{
    let labels = make_exits(asm)?;
    enter(asm, frame.size, labels.room)?;
    pass_arguments(names.alloc(), asm, &fun.params, &frame.places)?;
    let to = labels.targets();
    lower_inside(asm, fun, body, frame, &to, names, ends)?;
    end_fun(asm, is_main(&fun.name), frame.size, labels.end, labels.left)
}

/// A function that the text defines, in its frame. The address of the end of each of its regions is
/// written to the place of the region's number.
pub fn lower_fun(
    asm: &mut Asm,
    fun: &Fun,
    names: &mut Names,
    frame: &Frame,
    ends: &mut [u32; 256],
) -> Result<(), AsmFault>
    requires ready { IsReadyFunIn names.old (fun_of fun.now) }
    requires labels { HasLabels names.old (length asm.old.places) }
    requires frame { IsFrameOf (planned_of frame.now) (fun_of fun.now) }
    ensures lowered { OnOk result (IsLoweredFun names.old (fun_of fun.now) asm.old asm.new) }
    ensures ends { OnOk result (ends.new ≡ with_ends (place_in asm.new.places)
        (ends_in_body (length asm.old.places) (fun_of fun.now).body) ends.old) }
    ensures same { OnOk result (blocks_in names.new.known ≡ blocks_in names.old.known) }
    ensures functions { OnOk result (HasSameFunctions names.old names.new) }
    ensures too_long { IfErr result (λ fault. fault ≡ CodeTooLong → IsTooLong (32 * (1
        + length (fun_of fun.now).parameters + count_body (fun_of fun.now).body)) asm.old) }
{
    let Some(body) = &fun.body else {
        unreachable!();
    };
    let Some(label) = names.find_label(&fun.name) else {
        unreachable!();
    };
    asm.place(label);
    lower_whole(asm, fun, body, frame, names, ends)
}
