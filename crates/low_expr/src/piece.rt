//! Pieces of code that load constants, addresses and slots.

ghost use Rattle.std.specs.Prelude.{◌≡◌, ◌<◌, ◌≤◌, ◌*◌, ◌^◌, [], All, IfErr, OnOk, ◌≤ℤ◌, pos, negsuc};
ghost use Rattle.rv_code.specs.Table.{IsInstr};
ghost use Rattle.low_labels.specs.declared.fault.AsmFault.TheVariants.{CodeTooLong};
ghost use Rattle.low_labels.specs.Emission.{emit_all, IsTooLong};
ghost use Rattle.low_labels.specs.Operation.{width_of};
ghost use Rattle.low_expr.specs.CodePieces.{upper, lower, is_immediate, constant, frame_address, take_slot, home_address, read_by, narrow_by, write_by, all_do, keep};
ghost use Rattle.low_expr.specs.Registers.{t0};

use crate::register::{SP, T0, T2, X0};
use bop_bits::sext;
use c_semantics::{Held, Home};
use low_labels::{Asm, AsmFault};
use rv_code::Instr;

/// The slots that a frame of 64 KiB may have.
pub const SLOTS: u32 = 16_384;

/// Offsets from the stack pointer that an immediate holds.
const NEAR: u32 = 2048;

/// Adds instructions.
pub fn add(asm: &mut Asm, instrs: &[Instr]) -> Result<(), AsmFault>
    requires { All IsInstr instrs.now }
    ensures added { OnOk result (asm.new ≡ emit_all (all_do instrs.now) asm.old) }
    ensures too_long { IfErr result
        (λ fault. fault ≡ CodeTooLong → IsTooLong (width_of (all_do instrs.now)) asm.old) }
{
    for instr in instrs {
        asm.op(*instr)?;
    }
    Ok(())
}

/// The part of a number that LUI loads.
fn upper(v: u32) -> u32
    ensures part { result ≡ upper v }
    ensures fits { result < 2 ^ 20 }
{
    ((u64::from(v) + 2048) / 4096 % 1_048_576) as u32
}

/// The part of a number that is added.
fn lower(v: u32) -> i32
    ensures part { result ≡ lower v }
    ensures fits { (negsuc 2047 ≤ℤ result) × (result ≤ℤ pos 2047) }
{
    sext::<12>(v)
}

/// Whether 12 bits with their sign give a word.
fn is_immediate(v: u32) -> bool
    ensures { result ≡ is_immediate v }
{
    v.wrapping_add(2048) < 4096
}

/// A number into a register.
pub fn load_constant(asm: &mut Asm, rd: u8, v: u32) -> Result<(), AsmFault>
    requires { rd < 32 }
    ensures added { OnOk result (asm.new ≡ emit_all (all_do (constant rd v)) asm.old) }
    ensures too_long { IfErr result
        (λ fault. fault ≡ CodeTooLong → IsTooLong (width_of (all_do (constant rd v))) asm.old) }
{
    let imm = lower(v);
    if is_immediate(v) {
        add(asm, &[Instr::Addi { rd, rs1: X0, imm }])
    } else {
        let upper = upper(v);
        add(
            asm,
            &[Instr::Lui { rd, upper }, Instr::Addi { rd, rs1: rd, imm }],
        )
    }
}

/// The address of what is so far above the stack pointer, into a register.
pub fn load_frame_address(asm: &mut Asm, rd: u8, offset: u32) -> Result<(), AsmFault>
    requires { rd < 32 }
    ensures added { OnOk result (asm.new ≡ emit_all (all_do (frame_address rd offset)) asm.old) }
    ensures too_long { IfErr result
        (λ fault. fault ≡ CodeTooLong
        → IsTooLong (width_of (all_do (frame_address rd offset))) asm.old) }
{
    if offset < NEAR {
        let imm = offset as i32;
        return add(asm, &[Instr::Addi { rd, rs1: SP, imm }]);
    }
    let upper = upper(offset);
    let imm = lower(offset);
    add(
        asm,
        &[
            Instr::Lui { rd, upper },
            Instr::Add {
                rd,
                rs1: rd,
                rs2: SP,
            },
            Instr::Addi { rd, rs1: rd, imm },
        ],
    )
}

/// A slot into a register.
pub fn load_slot(asm: &mut Asm, rd: u8, slot: u32) -> Result<(), AsmFault>
    requires rd { rd < 32 }
    requires slot { slot < SLOTS }
    ensures added { OnOk result (asm.new ≡ emit_all (all_do (take_slot rd slot)) asm.old) }
    ensures too_long { IfErr result
        (λ fault. fault ≡ CodeTooLong → IsTooLong (width_of (all_do (take_slot rd slot))) asm.old) }
{
    let offset = 4 * slot;
    if offset < NEAR {
        let imm = offset as i32;
        return add(asm, &[Instr::Lw { rd, rs1: SP, imm }]);
    }
    let upper = upper(offset);
    let imm = lower(offset);
    add(
        asm,
        &[
            Instr::Lui { rd, upper },
            Instr::Add {
                rd,
                rs1: rd,
                rs2: SP,
            },
            Instr::Lw { rd, rs1: rd, imm },
        ],
    )
}

/// A register into a slot.
pub(crate) fn store_slot(asm: &mut Asm, rs: u8, slot: u32) -> Result<(), AsmFault>
    requires rs { rs < 32 }
    requires slot { slot < SLOTS }
    ensures added { OnOk result (asm.new ≡ emit_all (keep [] rs slot) asm.old) }
    ensures too_long { IfErr result
        (λ fault. fault ≡ CodeTooLong → IsTooLong (width_of (keep [] rs slot)) asm.old) }
{
    let offset = 4 * slot;
    if offset < NEAR {
        let imm = offset as i32;
        return add(
            asm,
            &[Instr::Sw {
                rs1: SP,
                rs2: rs,
                imm,
            }],
        );
    }
    let upper = upper(offset);
    let imm = lower(offset);
    add(
        asm,
        &[
            Instr::Lui { rd: T2, upper },
            Instr::Add {
                rd: T2,
                rs1: T2,
                rs2: SP,
            },
            Instr::Sw {
                rs1: T2,
                rs2: rs,
                imm,
            },
        ],
    )
}

/// The address of a variable into t0.
pub fn load_home(asm: &mut Asm, home: Home) -> Result<(), AsmFault>
    ensures added { OnOk result (asm.new ≡ emit_all (all_do (home_address home)) asm.old) }
    ensures too_long { IfErr result
        (λ fault. fault ≡ CodeTooLong → IsTooLong (width_of (all_do (home_address home))) asm.old) }
{
    match home {
        Home::Fixed(address) => load_constant(asm, T0, address),
        Home::InFrame(offset) => load_frame_address(asm, T0, offset),
        Home::Nowhere => load_constant(asm, T0, 0),
    }
}

/// What the object at the address in a register holds, into t0.
pub fn read(asm: &mut Asm, held: Held, rs: u8) -> Result<(), AsmFault>
    requires { rs < 32 }
    ensures added { OnOk result (asm.new ≡ emit_all (all_do (read_by held rs)) asm.old) }
    ensures too_long { IfErr result
        (λ fault. fault ≡ CodeTooLong → IsTooLong (width_of (all_do (read_by held rs))) asm.old) }
{
    let imm = 0;
    match held {
        Held::Byte => add(
            asm,
            &[Instr::Lbu {
                rd: T0,
                rs1: rs,
                imm,
            }],
        ),
        Held::Word => add(
            asm,
            &[Instr::Lw {
                rd: T0,
                rs1: rs,
                imm,
            }],
        ),
        Held::Array => add(
            asm,
            &[Instr::Addi {
                rd: T0,
                rs1: rs,
                imm,
            }],
        ),
    }
}

/// t0 as a value of the object's type.
pub fn narrow(asm: &mut Asm, held: Held) -> Result<(), AsmFault>
    ensures added { OnOk result (asm.new ≡ emit_all (all_do (narrow_by held)) asm.old) }
    ensures too_long { IfErr result
        (λ fault. fault ≡ CodeTooLong → IsTooLong (width_of (all_do (narrow_by held))) asm.old) }
{
    match held {
        Held::Byte => add(
            asm,
            &[Instr::Andi {
                rd: T0,
                rs1: T0,
                imm: 255,
            }],
        ),
        Held::Word => Ok(()),
        Held::Array => Ok(()),
    }
}

/// t0 into the object at the address in t2; an array isn't assigned.
pub fn write(asm: &mut Asm, held: Held) -> Result<(), AsmFault>
    ensures added { OnOk result (asm.new ≡ emit_all (all_do (write_by held)) asm.old) }
    ensures too_long { IfErr result
        (λ fault. fault ≡ CodeTooLong → IsTooLong (width_of (all_do (write_by held))) asm.old) }
{
    let imm = 0;
    match held {
        Held::Byte => add(
            asm,
            &[Instr::Sb {
                rs1: T2,
                rs2: T0,
                imm,
            }],
        ),
        Held::Word => add(
            asm,
            &[Instr::Sw {
                rs1: T2,
                rs2: T0,
                imm,
            }],
        ),
        Held::Array => Ok(()),
    }
}
