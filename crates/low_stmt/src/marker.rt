//! Markers.

ghost use Rattle.std.specs.Prelude.{◌≡◌, ◌≤◌, ◌<◌, ◌+◌, ◌++◌, List, length, slice_set, IfErr, OnOk};
ghost use Rattle.low_labels.specs.declared.fault.AsmFault.TheVariants.{CodeTooLong};
ghost use Rattle.low_labels.specs.Emission.{emit_all, IsTooLong};
ghost use Rattle.low_labels.specs.Operation.{width_of};
ghost use Rattle.c_tree.specs.declared.place.Place.{Place as At};
ghost use Rattle.c_tree.specs.declared.tree.Marker.TheVariants.{End};
ghost use Rattle.c_semantics.specs.Names.{Definition};
ghost use Rattle.low_expr.specs.CodePieces.{all_do, constant};
ghost use Rattle.low_expr.specs.ExprCode.{machine_call};
ghost use Rattle.low_expr.specs.LabelledNames.{functions_in, scope_in, HasLabels};
ghost use Rattle.low_expr.specs.Registers.{a0};
ghost use Rattle.low_stmt.specs.MarkerCode.{take_count, take_variable};
ghost use Rattle.low_stmt.specs.private.Parts.{Adds, GrowsAtMost, IsRefusal, SetsEnds};
ghost use Rattle.low_stmt.specs.private.StmtParts.{marker_part, scopes};

use c_tree::{Count, Marker, Name};
use low_expr::{A0, Names, T0, add, call_machine, load_constant, load_home, read};
use low_labels::{Asm, AsmFault};
use rv_code::Instr;

/// The second argument of a call of the machine.
const A1: u8 = 11;

/// The third argument.
const A2: u8 = 12;

/// What a variable holds into a register, or an array's address.
#[tactic(auto, using(low_expr::proofs::Emitting::sequences))]
fn load_variable(asm: &mut Asm, rd: u8, name: &Name, names: &Names) -> Result<(), AsmFault>
    requires { rd < 32 }
    ensures added { OnOk result ((definitions : List Definition) → (at : At) → asm.new
        ≡ emit_all (all_do (take_variable (scope_in definitions names.now) rd name.now at))
        asm.old) }
    ensures too_long { IfErr result (λ fault. fault ≡ CodeTooLong
        → (definitions : List Definition) → (at : At) → IsTooLong (width_of
        (all_do (take_variable (scope_in definitions names.now) rd name.now at))) asm.old) }
{
    let site = names.site(name);
    load_home(asm, site.home)?;
    read(asm, site.held, T0)?;
    add(
        asm,
        &[Instr::Addi {
            rd,
            rs1: T0,
            imm: 0,
        }],
    )
}

/// How many bytes a post sends, into the third argument.
fn load_count(asm: &mut Asm, count: &Count, names: &Names) -> Result<(), AsmFault>
    ensures added { OnOk result ((definitions : List Definition) → asm.new
        ≡ emit_all (all_do (take_count (scope_in definitions names.now) count.now)) asm.old) }
    ensures too_long { IfErr result (λ fault. fault ≡ CodeTooLong
        → (definitions : List Definition) → IsTooLong (width_of
        (all_do (take_count (scope_in definitions names.now) count.now))) asm.old) }
{
    match count {
        Count::Number(n) => load_constant(asm, A2, *n),
        Count::Name(name, _) => load_variable(asm, A2, name, names),
    }
}

/// A call of the machine, by its number, with a number as its first argument.
#[tactic(auto, using(low_expr::proofs::Emitting::sequences))]
fn call_with(asm: &mut Asm, first: u32, number: u8) -> Result<(), AsmFault>
    ensures added { OnOk result (asm.new
        ≡ emit_all (all_do (constant a0 first) ++ machine_call number) asm.old) }
    ensures too_long { IfErr result
        (IsRefusal (width_of (all_do (constant a0 first) ++ machine_call number)) asm.old) }
{
    load_constant(asm, A0, first)?;
    call_machine(asm, number)
}

/// Keeps the address of the end of a region, where there is a place for its number.
fn set_end(ends: &mut [u32; 256], number: u32, address: u32)
    ensures { ends.new ≡ slice_set ends.old number address }
{
    if (number as usize) < ends.len() {
        ends[number as usize] = address;
    }
}

/// The end of a region: a call, and a label after it, whose address is kept.
fn end_region(
    asm: &mut Asm,
    number: u32,
    names: &Names,
    ends: &mut [u32; 256],
) -> Result<(), AsmFault>
    requires labels { HasLabels names.now (length asm.old.places) }
    ensures lowered { OnOk result (Adds (marker_part (functions_in names.now) (scopes names.now)
        (End number)) asm.old asm.new) }
    ensures ends { OnOk result (SetsEnds (marker_part (functions_in names.now) (scopes names.now)
        (End number)) asm.old asm.new ends.old ends.new) }
    ensures few { OnOk result (GrowsAtMost 20 asm.old asm.new) }
    ensures labels { OnOk result (HasLabels names.now (length asm.new.places)) }
    ensures more { OnOk result (length asm.old.places ≤ length asm.new.places) }
    ensures too_long { IfErr result (IsRefusal 20 asm.old) }
{
    let label = asm.label()?;
    call_with(asm, number, 4)?;
    asm.place(label);
    set_end(ends, number, asm.here());
    Ok(())
}

/// The address and the count that a post takes, into the second and the third argument.
fn load_post(asm: &mut Asm, name: &Name, count: &Count, names: &Names) -> Result<(), AsmFault>
    ensures added { OnOk result ((definitions : List Definition) → (at : At) → asm.new ≡ emit_all
        (all_do (take_variable (scope_in definitions names.now) 11 name.now at
        ++ take_count (scope_in definitions names.now) count.now)) asm.old) }
    ensures few { OnOk result (GrowsAtMost 10 asm.old asm.new) }
    ensures same { OnOk result (length asm.new.places ≡ length asm.old.places) }
    ensures too_long { IfErr result (IsRefusal 10 asm.old) }
{
    load_variable(asm, A1, name, names)?;
    load_count(asm, count, names)?;
    Ok(())
}

/// A marker.
pub(crate) fn lower_marker(
    asm: &mut Asm,
    marker: &Marker,
    names: &Names,
    ends: &mut [u32; 256],
) -> Result<(), AsmFault>
    requires labels { HasLabels names.now (length asm.old.places) }
    ensures lowered { OnOk result (Adds (marker_part (functions_in names.now) (scopes names.now)
        marker.now) asm.old asm.new) }
    ensures ends { OnOk result (SetsEnds (marker_part (functions_in names.now) (scopes names.now)
        marker.now) asm.old asm.new ends.old ends.new) }
    ensures few { OnOk result (GrowsAtMost 20 asm.old asm.new) }
    ensures labels { OnOk result (HasLabels names.now (length asm.new.places)) }
    ensures more { OnOk result (length asm.old.places ≤ length asm.new.places) }
    ensures too_long { IfErr result (IsRefusal 20 asm.old) }
{
    match marker {
        Marker::Begin(number) => call_with(asm, *number, 3),
        Marker::End(number) => end_region(asm, *number, names, ends),
        Marker::Wait(channel) => call_with(asm, *channel, 6),
        Marker::Post(channel, name, _, count) => {
            load_post(asm, name, count, names)?;
            call_with(asm, *channel, 5)?;
            Ok(())
        }
    }
}
