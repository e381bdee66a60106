//! Calls, whose arguments are in slots.

ghost use Rattle.std.specs.Prelude.{◌≡◌, ◌<◌, ◌≤◌, ◌+◌, ◌++◌, ◌∷◌, [], length, IfErr, OnOk};
ghost use Rattle.low_labels.specs.declared.fault.AsmFault.TheVariants.{CodeTooLong};
ghost use Rattle.low_labels.specs.Emission.{emit_all, IsTooLong};
ghost use Rattle.low_labels.specs.Operation.{width_of, Jump};
ghost use Rattle.c_semantics.specs.Names.{no_names};
ghost use Rattle.low_expr.specs.declared.piece.TheConstants.{SLOTS};
ghost use Rattle.low_expr.specs.CodePieces.{all_do, keep, take_slot};
ghost use Rattle.low_expr.specs.ExprCode.{machine_call, arguments_into, call_code};
ghost use Rattle.low_expr.specs.LabelledNames.{functions_in, HasLabels};
ghost use Rattle.low_expr.specs.Registers.{ra, a0};
ghost use Rattle.low_expr.specs.private.Wanting.{CanCall};

use crate::names::Names;
use crate::piece::{SLOTS, add, load_slot, store_slot};
use crate::register::{A0, A7, RA, X0};
use c_tree::Callee;
use low_labels::{Asm, AsmFault, Label};
use rv_code::Instr;

/// A call of the machine, by its number.
pub fn call_machine(asm: &mut Asm, number: u8) -> Result<(), AsmFault>
    ensures added { OnOk result (asm.new ≡ emit_all (machine_call number) asm.old) }
    ensures too_long { IfErr result
        (λ fault. fault ≡ CodeTooLong → IsTooLong (width_of (machine_call number)) asm.old) }
{
    add(
        asm,
        &[
            Instr::Addi {
                rd: A7,
                rs1: X0,
                imm: i32::from(number),
            },
            Instr::Ecall,
        ],
    )
}

/// `getchar`.
#[tactic(auto, using(crate::proofs::Emitting::sequences))]
fn call_getchar(asm: &mut Asm, slot: u32) -> Result<(), AsmFault>
    requires { slot < SLOTS }
    ensures added { OnOk result (asm.new ≡ emit_all (machine_call 1 ++ keep [] a0 slot) asm.old) }
    ensures too_long { IfErr result
        (λ fault. fault ≡ CodeTooLong
        → IsTooLong (width_of (machine_call 1 ++ keep [] a0 slot)) asm.old) }
{
    call_machine(asm, 1)?;
    store_slot(asm, A0, slot)
}

/// `putchar`.
#[tactic(auto, using(crate::proofs::Emitting::sequences))]
fn call_putchar(asm: &mut Asm, slot: u32) -> Result<(), AsmFault>
    requires { slot < SLOTS }
    ensures added { OnOk result
        (asm.new ≡ emit_all (all_do (take_slot a0 slot) ++ (machine_call 2 ++ keep [] a0 slot))
        asm.old) }
    ensures too_long { IfErr result
        (λ fault. fault ≡ CodeTooLong
        → IsTooLong (width_of (all_do (take_slot a0 slot)
        ++ (machine_call 2 ++ keep [] a0 slot))) asm.old) }
{
    load_slot(asm, A0, slot)?;
    call_machine(asm, 2)?;
    store_slot(asm, A0, slot)
}

/// Slots into the registers of arguments, from one on.
#[tactic(auto, using(crate::proofs::Emitting::sequences))]
fn load_arguments(asm: &mut Asm, count: u32, rd: u8, slot: u32) -> Result<(), AsmFault>
    requires registers { rd + count ≤ 32 }
    requires slots { slot + count ≤ SLOTS }
    ensures added { OnOk result
        (asm.new ≡ emit_all (all_do (arguments_into count rd slot)) asm.old) }
    ensures too_long { IfErr result
        (λ fault. fault ≡ CodeTooLong
        → IsTooLong (width_of (all_do (arguments_into count rd slot))) asm.old) }
{
    if count == 0 {
        return Ok(());
    }
    load_slot(asm, rd, slot)?;
    load_arguments(asm, count - 1, rd + 1, slot + 1)
}

/// A jump to a function, and its value into a slot.
#[tactic(auto, using(crate::proofs::Emitting::sequences))]
fn jump_and_keep(asm: &mut Asm, label: Label, slot: u32) -> Result<(), AsmFault>
    requires label { label < length asm.old.places }
    requires slot { slot < SLOTS }
    ensures added { OnOk result (asm.new ≡ emit_all (Jump ra label ∷ keep [] a0 slot) asm.old) }
    ensures too_long { IfErr result
        (λ fault. fault ≡ CodeTooLong
        → IsTooLong (width_of (Jump ra label ∷ keep [] a0 slot)) asm.old) }
{
    asm.jump(RA, label)?;
    store_slot(asm, A0, slot)
}

/// The call of a function.
#[tactic(auto, using(crate::proofs::Emitting::sequences))]
fn call_function(asm: &mut Asm, label: Label, count: u32, slot: u32) -> Result<(), AsmFault>
    requires label { label < length asm.old.places }
    requires few { count ≤ 8 }
    requires slot { slot < SLOTS }
    requires slots { slot + count ≤ SLOTS }
    ensures added { OnOk result
        (asm.new ≡ emit_all (all_do (arguments_into count a0 slot)
        ++ (Jump ra label ∷ keep [] a0 slot)) asm.old) }
    ensures too_long { IfErr result
        (λ fault. fault ≡ CodeTooLong
        → IsTooLong (width_of (all_do (arguments_into count a0 slot)
        ++ (Jump ra label ∷ keep [] a0 slot))) asm.old) }
{
    load_arguments(asm, count, A0, slot)?;
    jump_and_keep(asm, label, slot)
}

/// The call of what a name or a word names, whose arguments are in slots.
pub(crate) fn add_call(
    asm: &mut Asm,
    callee: &Callee,
    count: u32,
    names: &Names,
    slot: u32,
) -> Result<(), AsmFault>
    requires labels { HasLabels names.now (length asm.old.places) }
    requires takes { CanCall names.now callee.now count }
    requires slot { slot < SLOTS }
    requires slots { slot + count ≤ SLOTS }
    ensures added { OnOk result
        (asm.new ≡ emit_all (call_code (functions_in names.now) no_names callee.now count slot)
        asm.old) }
    ensures too_long { IfErr result (λ fault. fault ≡ CodeTooLong → IsTooLong
        (width_of (call_code (functions_in names.now) no_names callee.now count slot)) asm.old) }
{
    match callee {
        Callee::Name(name) => match names.numbers.find(name.get()) {
            Some(number) => call_function(asm, names.label_of(number), count, slot),
            None => unreachable!(),
        },
        Callee::Getchar => call_getchar(asm, slot),
        Callee::Putchar => call_putchar(asm, slot),
    }
}
