//! What the operators make of registers.

ghost use Rattle.std.specs.Prelude.{◌≡◌, ◌<◌, ◌^◌, ◌++◌, ◌∷◌, [], IfErr, OnOk, pos};
ghost use Rattle.rv_code.specs.declared.instr.Instr.TheVariants as instr;
ghost use Rattle.rv_code.specs.Table.{IsInstr};
ghost use Rattle.low_labels.specs.declared.fault.AsmFault.TheVariants.{CodeTooLong};
ghost use Rattle.low_labels.specs.Emission.{emit_all, IsTooLong};
ghost use Rattle.low_labels.specs.Operation.{width_of};
ghost use Rattle.c_tree.specs.View.{ty_of};
ghost use Rattle.low_expr.specs.CodePieces.{all_do};
ghost use Rattle.low_expr.specs.Operators.{less_code, word_code, arithmetic_code, scaled, sum_code, difference_code, other_code, binary_code, unary_code, cast_code};
ghost use Rattle.low_expr.specs.Readiness.{OperandFits};
ghost use Rattle.low_expr.specs.Registers.{x0, t0};
ghost use Rattle.c_tree.specs.declared.operator.Binary.TheVariants as binary;
ghost use Rattle.c_semantics.specs.declared.kind.Operand.TheVariants as operand;

use crate::piece::{add, load_constant};
use crate::register::{T0, T1, T3, X0};
use c_semantics::Operand;
use c_tree::{Binary, CType, Group, Unary};
use low_labels::{Asm, AsmFault};
use rv_code::Instr;

/// Whether one register is less than another.
fn less(unsigned: bool, rs1: u8, rs2: u8) -> Instr
    requires rs1 { rs1 < 32 }
    requires rs2 { rs2 < 32 }
    ensures code { result ≡ less_code unsigned rs1 rs2 }
    ensures valid { IsInstr result }
{
    if unsigned {
        Instr::Sltu { rd: T0, rs1, rs2 }
    } else {
        Instr::Slt { rd: T0, rs1, rs2 }
    }
}

/// Whether t0 is 0.
fn is_zero() -> Instr
    ensures code { result ≡ instr.Sltiu t0 t0 (pos 1) }
    ensures valid { IsInstr result }
{
    Instr::Sltiu {
        rd: T0,
        rs1: T0,
        imm: 1,
    }
}

/// Whether a register isn't 0.
fn truth(rd: u8) -> Instr
    requires { rd < 32 }
    ensures code { result ≡ instr.Sltu rd x0 rd }
    ensures valid { IsInstr result }
{
    Instr::Sltu {
        rd,
        rs1: X0,
        rs2: rd,
    }
}

/// An operator between two words.
pub(crate) fn add_word_operator(asm: &mut Asm, op: Binary, unsigned: bool) -> Result<(), AsmFault>
    ensures added { OnOk result (asm.new ≡ emit_all (all_do (word_code op unsigned)) asm.old) }
    ensures too_long { IfErr result
        (λ fault. fault ≡ CodeTooLong
        → IsTooLong (width_of (all_do (word_code op unsigned))) asm.old) }
{
    let (rd, rs1, rs2) = (T0, T0, T1);
    match op {
        Binary::Or => add(asm, &[truth(T0), truth(T1), Instr::Or { rd, rs1, rs2 }]),
        Binary::And => add(asm, &[truth(T0), truth(T1), Instr::And { rd, rs1, rs2 }]),
        Binary::BitOr => add(asm, &[Instr::Or { rd, rs1, rs2 }]),
        Binary::BitXor => add(asm, &[Instr::Xor { rd, rs1, rs2 }]),
        Binary::BitAnd => add(asm, &[Instr::And { rd, rs1, rs2 }]),
        Binary::Equal => add(asm, &[Instr::Sub { rd, rs1, rs2 }, is_zero()]),
        Binary::Unequal => add(asm, &[Instr::Sub { rd, rs1, rs2 }, truth(T0)]),
        Binary::Less => add(asm, &[less(unsigned, T0, T1)]),
        Binary::Greater => add(asm, &[less(unsigned, T1, T0)]),
        Binary::LessEqual => add(asm, &[less(unsigned, T1, T0), is_zero()]),
        Binary::GreaterEqual => add(asm, &[less(unsigned, T0, T1), is_zero()]),
        Binary::Left => add(asm, &[Instr::Sll { rd, rs1, rs2 }]),
        Binary::Right if unsigned => add(asm, &[Instr::Srl { rd, rs1, rs2 }]),
        Binary::Right => add(asm, &[Instr::Sra { rd, rs1, rs2 }]),
        Binary::Plus => add(asm, &[Instr::Add { rd, rs1, rs2 }]),
        Binary::Minus => add(asm, &[Instr::Sub { rd, rs1, rs2 }]),
        Binary::Times => add(asm, &[Instr::Mul { rd, rs1, rs2 }]),
        Binary::Divide if unsigned => add(asm, &[Instr::Divu { rd, rs1, rs2 }]),
        Binary::Divide => add(asm, &[Instr::Div { rd, rs1, rs2 }]),
        Binary::Rest if unsigned => add(asm, &[Instr::Remu { rd, rs1, rs2 }]),
        Binary::Rest => add(asm, &[Instr::Rem { rd, rs1, rs2 }]),
    }
}

/// An operator between two integers; a shift takes its sign from the left one.
fn add_arithmetic(asm: &mut Asm, op: Binary, c: Operand, d: Operand) -> Result<(), AsmFault>
    ensures added { OnOk result (asm.new ≡ emit_all (all_do (arithmetic_code op c d)) asm.old) }
    ensures too_long { IfErr result
        (λ fault. fault ≡ CodeTooLong
        → IsTooLong (width_of (all_do (arithmetic_code op c d))) asm.old) }
{
    let unsigned = c.is_unsigned() || (!op.group().is_shift() && d.is_unsigned());
    add_word_operator(asm, op, unsigned)
}

/// A number of elements, in a register, as bytes.
#[tactic(auto, using(crate::proofs::Emitting::sequences))]
fn scale(asm: &mut Asm, size: u64, rd: u8) -> Result<(), AsmFault>
    requires size { size < 2 ^ 31 }
    requires rd { rd < 32 }
    ensures added { OnOk result (asm.new ≡ emit_all (all_do (scaled size rd)) asm.old) }
    ensures too_long { IfErr result
        (λ fault. fault ≡ CodeTooLong → IsTooLong (width_of (all_do (scaled size rd))) asm.old) }
{
    load_constant(asm, T3, size as u32)?;
    add(
        asm,
        &[Instr::Mul {
            rd,
            rs1: rd,
            rs2: T3,
        }],
    )
}

/// What is scaled in a register and added to t0 or subtracted from it.
#[tactic(auto, using(crate::proofs::Emitting::sequences))]
fn scale_and(asm: &mut Asm, size: u64, rd: u8, instr: Instr) -> Result<(), AsmFault>
    requires size { size < 2 ^ 31 }
    requires rd { rd < 32 }
    requires valid { IsInstr instr }
    ensures added { OnOk result
        (asm.new ≡ emit_all (all_do (scaled size rd ++ instr ∷ [])) asm.old) }
    ensures too_long { IfErr result
        (λ fault. fault ≡ CodeTooLong
        → IsTooLong (width_of (all_do (scaled size rd ++ instr ∷ []))) asm.old) }
{
    scale(asm, size, rd)?;
    add(asm, &[instr])
}

/// `+`.
fn add_sum(asm: &mut Asm, op: Binary, c: Operand, d: Operand) -> Result<(), AsmFault>
    requires c { OperandFits c }
    requires d { OperandFits d }
    ensures added { OnOk result (asm.new ≡ emit_all (all_do (sum_code op c d)) asm.old) }
    ensures too_long { IfErr result
        (λ fault. fault ≡ CodeTooLong → IsTooLong (width_of (all_do (sum_code op c d))) asm.old) }
{
    let sum = Instr::Add {
        rd: T0,
        rs1: T0,
        rs2: T1,
    };
    match (c, d) {
        (Operand::Pointer(size), _) => scale_and(asm, size, T1, sum),
        (_, Operand::Pointer(size)) => scale_and(asm, size, T0, sum),
        _ => add_arithmetic(asm, op, c, d),
    }
}

/// The difference of two pointers.
#[tactic(auto, using(crate::proofs::Emitting::sequences))]
fn add_distance(asm: &mut Asm, size: u64) -> Result<(), AsmFault>
    requires { size < 2 ^ 31 }
    ensures added { OnOk result
        (asm.new ≡ emit_all (all_do
        (difference_code binary.Minus (operand.Pointer size) (operand.Pointer size))) asm.old) }
    ensures too_long { IfErr result
        (λ fault. fault ≡ CodeTooLong
        → IsTooLong (width_of (all_do
        (difference_code binary.Minus (operand.Pointer size) (operand.Pointer size))))
        asm.old) }
{
    add(
        asm,
        &[Instr::Sub {
            rd: T0,
            rs1: T0,
            rs2: T1,
        }],
    )?;
    load_constant(asm, T3, size as u32)?;
    add(
        asm,
        &[Instr::Div {
            rd: T0,
            rs1: T0,
            rs2: T3,
        }],
    )
}

/// `-`.
fn add_difference(asm: &mut Asm, op: Binary, c: Operand, d: Operand) -> Result<(), AsmFault>
    requires { OperandFits c }
    ensures added { OnOk result (asm.new ≡ emit_all (all_do (difference_code op c d)) asm.old) }
    ensures too_long { IfErr result
        (λ fault. fault ≡ CodeTooLong
        → IsTooLong (width_of (all_do (difference_code op c d))) asm.old) }
{
    let difference = Instr::Sub {
        rd: T0,
        rs1: T0,
        rs2: T1,
    };
    match (c, d) {
        (Operand::Pointer(size), Operand::Pointer(_)) => add_distance(asm, size),
        (Operand::Pointer(size), _) => scale_and(asm, size, T1, difference),
        _ => add_arithmetic(asm, op, c, d),
    }
}

/// Another operator; addresses are compared as unsigned numbers.
fn add_other(asm: &mut Asm, op: Binary, c: Operand, d: Operand) -> Result<(), AsmFault>
    ensures added { OnOk result (asm.new ≡ emit_all (all_do (other_code op c d)) asm.old) }
    ensures too_long { IfErr result
        (λ fault. fault ≡ CodeTooLong → IsTooLong (width_of (all_do (other_code op c d))) asm.old) }
{
    match c {
        Operand::Pointer(_) => add_word_operator(asm, op, true),
        _ => add_arithmetic(asm, op, c, d),
    }
}

/// A binary operator, on t0 and t1.
pub(crate) fn add_binary(asm: &mut Asm, op: Binary, c: Operand, d: Operand) -> Result<(), AsmFault>
    requires c { OperandFits c }
    requires d { OperandFits d }
    ensures added { OnOk result (asm.new ≡ emit_all (all_do (binary_code op c d)) asm.old) }
    ensures too_long { IfErr result
        (λ fault. fault ≡ CodeTooLong
        → IsTooLong (width_of (all_do (binary_code op c d))) asm.old) }
{
    match op.group() {
        Group::Sum => add_sum(asm, op, c, d),
        Group::Difference => add_difference(asm, op, c, d),
        _ => add_other(asm, op, c, d),
    }
}

/// `+ - ! ~` of t0.
pub(crate) fn add_unary(asm: &mut Asm, op: Unary) -> Result<(), AsmFault>
    ensures added { OnOk result (asm.new ≡ emit_all (all_do (unary_code op)) asm.old) }
    ensures too_long { IfErr result
        (λ fault. fault ≡ CodeTooLong → IsTooLong (width_of (all_do (unary_code op))) asm.old) }
{
    let rd = T0;
    match op {
        Unary::Minus => add(
            asm,
            &[Instr::Sub {
                rd,
                rs1: X0,
                rs2: T0,
            }],
        ),
        Unary::Not => add(asm, &[is_zero()]),
        Unary::Flip => add(
            asm,
            &[Instr::Xori {
                rd,
                rs1: T0,
                imm: -1,
            }],
        ),
        Unary::Plus | Unary::At | Unary::Address => Ok(()),
    }
}

/// t0 as a value of another integer type.
pub fn add_cast(asm: &mut Asm, to: &CType) -> Result<(), AsmFault>
    ensures added { OnOk result (asm.new ≡ emit_all (all_do (cast_code (ty_of to.now))) asm.old) }
    ensures too_long { IfErr result
        (λ fault. fault ≡ CodeTooLong
        → IsTooLong (width_of (all_do (cast_code (ty_of to.now)))) asm.old) }
{
    match to {
        CType::Char => add(
            asm,
            &[Instr::Andi {
                rd: T0,
                rs1: T0,
                imm: 255,
            }],
        ),
        _ => Ok(()),
    }
}
