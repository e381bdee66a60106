//! What a node does with the values of its operands, which are in slots.

ghost use Rattle.std.specs.Prelude.{◌≡◌, ◌<◌, ◌+◌, ◌++◌, ◌∷◌, [], IfErr, OnOk, pos};
ghost use Rattle.rv_code.specs.declared.instr.Instr.TheVariants as instr;
ghost use Rattle.low_labels.specs.declared.fault.AsmFault.TheVariants.{CodeTooLong};
ghost use Rattle.low_labels.specs.Emission.{emit_all, IsTooLong};
ghost use Rattle.low_labels.specs.Operation.{width_of, Do};
ghost use Rattle.c_tree.specs.View.{ty_of};
ghost use Rattle.c_tree.specs.declared.operator.Binary.TheVariants as binary;
ghost use Rattle.c_semantics.specs.Eval.{step_operator};
ghost use Rattle.low_expr.specs.declared.piece.TheConstants.{SLOTS};
ghost use Rattle.low_expr.specs.CodePieces.{all_do, constant, home_address, keep, read_by, nothing, take_slot};
ghost use Rattle.low_expr.specs.ExprCode.{on_one, on_two, unary_node, step_code, step_register, assign_code, combine_code, keep_written, truth_code};
ghost use Rattle.low_expr.specs.Operators.{binary_code, cast_code, unary_code};
ghost use Rattle.low_expr.specs.Readiness.{OperandFits};
ghost use Rattle.low_expr.specs.Registers.{x0, t0, t1, t2, t4};

use crate::operators::{add_binary, add_cast, add_unary};
use crate::piece::{
    SLOTS, add, load_constant, load_home, load_slot, narrow, read, store_slot, write,
};
use crate::register::{T0, T1, T2, T4, X0};
use c_semantics::{Held, Home, Operand};
use c_tree::{Binary, CType, Step, Unary};
use low_labels::{Asm, AsmFault};
use rv_code::Instr;

/// A constant.
#[tactic(auto, using(crate::proofs::Emitting::sequences))]
pub(crate) fn add_constant(asm: &mut Asm, value: u32, slot: u32) -> Result<(), AsmFault>
    requires { slot < SLOTS }
    ensures added { OnOk result (asm.new ≡ emit_all (keep (constant t0 value) t0 slot) asm.old) }
    ensures too_long { IfErr result
        (λ fault. fault ≡ CodeTooLong
        → IsTooLong (width_of (keep (constant t0 value) t0 slot)) asm.old) }
{
    load_constant(asm, T0, value)?;
    store_slot(asm, T0, slot)
}

/// The value of a variable.
#[tactic(auto, using(crate::proofs::Emitting::sequences))]
pub(crate) fn add_variable(asm: &mut Asm, home: Home, held: Held, slot: u32) -> Result<(), AsmFault>
    requires { slot < SLOTS }
    ensures added { OnOk result
        (asm.new ≡ emit_all (keep (home_address home ++ read_by held t0) t0 slot) asm.old) }
    ensures too_long { IfErr result
        (λ fault. fault ≡ CodeTooLong
        → IsTooLong (width_of (keep (home_address home ++ read_by held t0) t0 slot)) asm.old) }
{
    load_home(asm, home)?;
    read(asm, held, T0)?;
    store_slot(asm, T0, slot)
}

/// The address of a variable.
#[tactic(auto, using(crate::proofs::Emitting::sequences))]
pub(crate) fn add_home(asm: &mut Asm, home: Home, slot: u32) -> Result<(), AsmFault>
    requires { slot < SLOTS }
    ensures added { OnOk result (asm.new ≡ emit_all (keep (home_address home) t0 slot) asm.old) }
    ensures too_long { IfErr result
        (λ fault. fault ≡ CodeTooLong
        → IsTooLong (width_of (keep (home_address home) t0 slot)) asm.old) }
{
    load_home(asm, home)?;
    store_slot(asm, T0, slot)
}

/// The instruction that does nothing.
pub fn add_nothing(asm: &mut Asm) -> Result<(), AsmFault>
    ensures added { OnOk result (asm.new ≡ emit_all (Do nothing ∷ []) asm.old) }
    ensures too_long { IfErr result
        (λ fault. fault ≡ CodeTooLong → IsTooLong (width_of (Do nothing ∷ [])) asm.old) }
{
    add(
        asm,
        &[Instr::Addi {
            rd: X0,
            rs1: X0,
            imm: 0,
        }],
    )
}

/// What the object at an address in a slot holds.
#[tactic(auto, using(crate::proofs::Emitting::sequences))]
fn add_contents(asm: &mut Asm, held: Held, slot: u32) -> Result<(), AsmFault>
    requires { slot < SLOTS }
    ensures added { OnOk result (asm.new ≡ emit_all (on_one slot (read_by held t0)) asm.old) }
    ensures too_long { IfErr result
        (λ fault. fault ≡ CodeTooLong
        → IsTooLong (width_of (on_one slot (read_by held t0))) asm.old) }
{
    load_slot(asm, T0, slot)?;
    read(asm, held, T0)?;
    store_slot(asm, T0, slot)
}

/// `+ - ! ~` of a value.
#[tactic(auto, using(crate::proofs::Emitting::sequences))]
fn add_unary_value(asm: &mut Asm, op: Unary, slot: u32) -> Result<(), AsmFault>
    requires { slot < SLOTS }
    ensures added { OnOk result (asm.new ≡ emit_all (on_one slot (unary_code op)) asm.old) }
    ensures too_long { IfErr result
        (λ fault. fault ≡ CodeTooLong
        → IsTooLong (width_of (on_one slot (unary_code op))) asm.old) }
{
    load_slot(asm, T0, slot)?;
    add_unary(asm, op)?;
    store_slot(asm, T0, slot)
}

/// An operator before its operand.
pub(crate) fn finish_unary(asm: &mut Asm, op: Unary, held: Held, slot: u32) -> Result<(), AsmFault>
    requires { slot < SLOTS }
    ensures added { OnOk result (asm.new ≡ emit_all (unary_node op held slot [] []) asm.old) }
    ensures too_long { IfErr result
        (λ fault. fault ≡ CodeTooLong
        → IsTooLong (width_of (unary_node op held slot [] [])) asm.old) }
{
    match op {
        Unary::At => add_contents(asm, held, slot),
        Unary::Address => add_nothing(asm),
        _ => add_unary_value(asm, op, slot),
    }
}

/// A cast.
#[tactic(auto, using(crate::proofs::Emitting::sequences))]
pub(crate) fn finish_cast(asm: &mut Asm, to: &CType, slot: u32) -> Result<(), AsmFault>
    requires { slot < SLOTS }
    ensures added { OnOk result
        (asm.new ≡ emit_all (on_one slot (cast_code (ty_of to.now))) asm.old) }
    ensures too_long { IfErr result
        (λ fault. fault ≡ CodeTooLong
        → IsTooLong (width_of (on_one slot (cast_code (ty_of to.now)))) asm.old) }
{
    load_slot(asm, T0, slot)?;
    add_cast(asm, to)?;
    store_slot(asm, T0, slot)
}

/// Whether a value is not 0.
#[tactic(auto, using(crate::proofs::Emitting::sequences))]
pub(crate) fn add_truth(asm: &mut Asm, slot: u32) -> Result<(), AsmFault>
    requires { slot < SLOTS }
    ensures added { OnOk result (asm.new ≡ emit_all (truth_code slot) asm.old) }
    ensures too_long { IfErr result
        (λ fault. fault ≡ CodeTooLong → IsTooLong (width_of (truth_code slot)) asm.old) }
{
    load_slot(asm, T0, slot)?;
    add(
        asm,
        &[Instr::Sltu {
            rd: T0,
            rs1: X0,
            rs2: T0,
        }],
    )?;
    store_slot(asm, T0, slot)
}

/// An operator between two values.
#[tactic(auto, using(crate::proofs::Emitting::sequences))]
pub(crate) fn finish_binary(
    asm: &mut Asm,
    op: Binary,
    c: Operand,
    d: Operand,
    slot: u32,
) -> Result<(), AsmFault>
    requires c { OperandFits c }
    requires d { OperandFits d }
    requires slot { slot + 1 < SLOTS }
    ensures added { OnOk result (asm.new ≡ emit_all (on_two slot (binary_code op c d)) asm.old) }
    ensures too_long { IfErr result
        (λ fault. fault ≡ CodeTooLong
        → IsTooLong (width_of (on_two slot (binary_code op c d))) asm.old) }
{
    load_slot(asm, T0, slot)?;
    load_slot(asm, T1, slot + 1)?;
    add_binary(asm, op, c, d)?;
    store_slot(asm, T0, slot)
}

/// An element of an array.
#[tactic(auto, using(crate::proofs::Emitting::sequences))]
pub(crate) fn finish_index(
    asm: &mut Asm,
    c: Operand,
    d: Operand,
    held: Held,
    slot: u32,
) -> Result<(), AsmFault>
    requires c { OperandFits c }
    requires d { OperandFits d }
    requires slot { slot + 1 < SLOTS }
    ensures added { OnOk result
        (asm.new ≡ emit_all (on_two slot (binary_code binary.Plus c d ++ read_by held t0))
        asm.old) }
    ensures too_long { IfErr result
        (λ fault. fault ≡ CodeTooLong
        → IsTooLong (width_of (on_two slot (binary_code binary.Plus c d ++ read_by held t0)))
        asm.old) }
{
    load_slot(asm, T0, slot)?;
    load_slot(asm, T1, slot + 1)?;
    add_binary(asm, Binary::Plus, c, d)?;
    read(asm, held, T0)?;
    store_slot(asm, T0, slot)
}

/// The address of an element of an array.
pub(crate) fn finish_index_place(
    asm: &mut Asm,
    c: Operand,
    d: Operand,
    slot: u32,
) -> Result<(), AsmFault>
    requires c { OperandFits c }
    requires d { OperandFits d }
    requires slot { slot + 1 < SLOTS }
    ensures added { OnOk result
        (asm.new ≡ emit_all (on_two slot (binary_code binary.Plus c d)) asm.old) }
    ensures too_long { IfErr result
        (λ fault. fault ≡ CodeTooLong
        → IsTooLong (width_of (on_two slot (binary_code binary.Plus c d))) asm.old) }
{
    finish_binary(asm, Binary::Plus, c, d, slot)
}

/// t0 into the object at the address in t2, and a register into a slot.
#[tactic(auto, using(crate::proofs::Emitting::sequences))]
fn write_and_keep(asm: &mut Asm, held: Held, rs: u8, slot: u32) -> Result<(), AsmFault>
    requires rs { rs < 32 }
    requires slot { slot < SLOTS }
    ensures added { OnOk result (asm.new ≡ emit_all (keep_written [] held rs slot) asm.old) }
    ensures too_long { IfErr result
        (λ fault. fault ≡ CodeTooLong
        → IsTooLong (width_of (keep_written [] held rs slot)) asm.old) }
{
    narrow(asm, held)?;
    write(asm, held)?;
    store_slot(asm, rs, slot)
}

/// What an operator makes of t0 and t1 into the object at the address in t2, and a register into a slot.
#[tactic(auto, using(crate::proofs::Emitting::sequences))]
fn operate_and_keep(
    asm: &mut Asm,
    op: Binary,
    c: Operand,
    d: Operand,
    held: Held,
    rs: u8,
    slot: u32,
) -> Result<(), AsmFault>
    requires c { OperandFits c }
    requires d { OperandFits d }
    requires rs { rs < 32 }
    requires slot { slot < SLOTS }
    ensures added { OnOk result
        (asm.new ≡ emit_all (keep_written (binary_code op c d) held rs slot) asm.old) }
    ensures too_long { IfErr result
        (λ fault. fault ≡ CodeTooLong
        → IsTooLong (width_of (keep_written (binary_code op c d) held rs slot)) asm.old) }
{
    add_binary(asm, op, c, d)?;
    write_and_keep(asm, held, rs, slot)
}

/// The operator of `++` or `--`.
fn step_operator(how: Step) -> Binary
    ensures { result ≡ step_operator how }
{
    match how {
        Step::RaiseFirst | Step::RaiseLast => Binary::Plus,
        Step::LowerFirst | Step::LowerLast => Binary::Minus,
    }
}

/// The register that has the value of `++` or `--`.
fn step_register(how: Step) -> u8
    ensures register { result ≡ step_register how }
    ensures valid { result < 32 }
{
    match how {
        Step::RaiseFirst | Step::LowerFirst => T0,
        Step::RaiseLast | Step::LowerLast => T4,
    }
}

/// The value of the object at an address in a slot, into t0, and the address into t2.
#[tactic(auto, using(crate::proofs::Emitting::sequences))]
fn load_object(asm: &mut Asm, held: Held, slot: u32) -> Result<(), AsmFault>
    requires { slot < SLOTS }
    ensures added { OnOk result
        (asm.new ≡ emit_all (all_do (take_slot t2 slot ++ read_by held t2)) asm.old) }
    ensures too_long { IfErr result
        (λ fault. fault ≡ CodeTooLong
        → IsTooLong (width_of (all_do (take_slot t2 slot ++ read_by held t2))) asm.old) }
{
    load_slot(asm, T2, slot)?;
    read(asm, held, T2)
}

/// The old value into t4, and 1 into t1.
fn prepare_step(asm: &mut Asm) -> Result<(), AsmFault>
    ensures added { OnOk result
        (asm.new ≡ emit_all (all_do (instr.Addi t4 t0 (pos 0) ∷ instr.Addi t1 x0 (pos 1) ∷ []))
        asm.old) }
    ensures too_long { IfErr result
        (λ fault. fault ≡ CodeTooLong
        → IsTooLong (width_of (all_do
        (instr.Addi t4 t0 (pos 0) ∷ instr.Addi t1 x0 (pos 1) ∷ []))) asm.old) }
{
    add(
        asm,
        &[
            Instr::Addi {
                rd: T4,
                rs1: T0,
                imm: 0,
            },
            Instr::Addi {
                rd: T1,
                rs1: X0,
                imm: 1,
            },
        ],
    )
}

/// `++` or `--`.
#[tactic(auto, using(crate::proofs::Emitting::sequences))]
pub(crate) fn finish_step(
    asm: &mut Asm,
    how: Step,
    c: Operand,
    held: Held,
    slot: u32,
) -> Result<(), AsmFault>
    requires c { OperandFits c }
    requires slot { slot < SLOTS }
    ensures added { OnOk result (asm.new ≡ emit_all (step_code how c held slot) asm.old) }
    ensures too_long { IfErr result
        (λ fault. fault ≡ CodeTooLong → IsTooLong (width_of (step_code how c held slot)) asm.old) }
{
    load_object(asm, held, slot)?;
    prepare_step(asm)?;
    let op = step_operator(how);
    let rs = step_register(how);
    operate_and_keep(asm, op, c, Operand::Signed, held, rs, slot)
}

/// `=`.
#[tactic(auto, using(crate::proofs::Emitting::sequences))]
fn add_assign(asm: &mut Asm, held: Held, slot: u32) -> Result<(), AsmFault>
    requires { slot + 1 < SLOTS }
    ensures added { OnOk result
        (asm.new ≡ emit_all (keep_written
        (take_slot t2 slot ++ take_slot t0 (slot + 1)) held t0 slot) asm.old) }
    ensures too_long { IfErr result
        (λ fault. fault ≡ CodeTooLong
        → IsTooLong (width_of (keep_written
        (take_slot t2 slot ++ take_slot t0 (slot + 1)) held t0 slot)) asm.old) }
{
    load_slot(asm, T2, slot)?;
    load_slot(asm, T0, slot + 1)?;
    write_and_keep(asm, held, T0, slot)
}

/// `=` with an operator.
#[tactic(auto, using(crate::proofs::Emitting::sequences))]
fn add_combined(
    asm: &mut Asm,
    op: Binary,
    c: Operand,
    d: Operand,
    held: Held,
    slot: u32,
) -> Result<(), AsmFault>
    requires c { OperandFits c }
    requires d { OperandFits d }
    requires slot { slot + 1 < SLOTS }
    ensures added { OnOk result
        (asm.new ≡ emit_all (combine_code op c d held (take_slot t1 (slot + 1)) t0 slot) asm.old) }
    ensures too_long { IfErr result
        (λ fault. fault ≡ CodeTooLong
        → IsTooLong (width_of (combine_code op c d held (take_slot t1 (slot + 1)) t0 slot))
        asm.old) }
{
    load_object(asm, held, slot)?;
    load_slot(asm, T1, slot + 1)?;
    operate_and_keep(asm, op, c, d, held, T0, slot)
}

/// An assignment.
pub(crate) fn finish_assign(
    asm: &mut Asm,
    how: Option<Binary>,
    c: Operand,
    d: Operand,
    held: Held,
    slot: u32,
) -> Result<(), AsmFault>
    requires c { OperandFits c }
    requires d { OperandFits d }
    requires slot { slot + 1 < SLOTS }
    ensures added { OnOk result (asm.new ≡ emit_all (assign_code how c d held slot) asm.old) }
    ensures too_long { IfErr result
        (λ fault. fault ≡ CodeTooLong
        → IsTooLong (width_of (assign_code how c d held slot)) asm.old) }
{
    match how {
        None => add_assign(asm, held, slot),
        Some(op) => add_combined(asm, op, c, d, held, slot),
    }
}
