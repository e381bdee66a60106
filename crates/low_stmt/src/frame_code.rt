//! How a function is entered, takes its arguments, and is left.

ghost use Rattle.std.specs.Prelude.{◌≡◌, ◌≤◌, ◌<◌, ◌+◌, ◌*◌, ◌/◌, ◌^◌, ◌++◌, ◌∷◌, [], length, map, pos, IfErr, OnOk};
ghost use Rattle.bop_bits.specs.declared.map.TheConstants.{STACK_FROM};
ghost use Rattle.rv_code.specs.declared.instr.Instr.TheVariants as instr;
ghost use Rattle.low_labels.specs.declared.test.Test.TheVariants as test;
ghost use Rattle.low_labels.specs.Emission.{emit_all};
ghost use Rattle.low_labels.specs.Operation.{width_of, Branch, Do, Mark};
ghost use Rattle.c_tree.specs.View.{param_of};
ghost use Rattle.low_expr.specs.CodePieces.{all_do, constant, frame_address};
ghost use Rattle.low_expr.specs.ExprCode.{machine_call};
ghost use Rattle.low_expr.specs.Registers.{a0, ra, sp, t0, t2};
ghost use Rattle.low_stmt.specs.FunCode.{end_code, enter_code, last_word, leave_code, pass_code};
ghost use Rattle.low_stmt.specs.StmtCode.{write_code};
ghost use Rattle.low_stmt.specs.private.Parts.{GrowsAtMost, IsRefusal};

use bop_bits::STACK_FROM;
use c_resolve::{held_of, past};
use c_semantics::Held;
use c_tree::Param;
use c_types::parameter_type;
use low_expr::{
    A0, RA, SP, T0, T2, X0, add, call_machine, load_constant, load_frame_address, load_slot,
    narrow, write,
};
use low_labels::{Asm, AsmFault, Label, Test};
use rv_code::Instr;
use std::alloc::Global;

/// The number of the last word of a frame.
fn last_word(size: u32) -> u32
    ensures word { result ≡ last_word size }
    ensures low { result ≤ size / 4 }
{
    (size / 4).saturating_sub(1)
}

/// The test of the stack: where it has no room for a frame, the machine stops.
#[tactic(auto, using(low_expr::proofs::Emitting::sequences))]
fn test_room(asm: &mut Asm, size: u32, room: Label) -> Result<(), AsmFault>
    requires size { size ≤ 2 ^ 16 }
    requires room { room < length asm.old.places }
    ensures added { OnOk result (asm.new ≡ emit_all (all_do (constant t0 (STACK_FROM + size))
        ++ (Branch test.GeU sp t0 room ∷ (machine_call 7 ++ Mark room ∷ []))) asm.old) }
    ensures too_long { IfErr result
        (IsRefusal (width_of (all_do (constant t0 (STACK_FROM
        + size)) ++ (Branch test.GeU sp t0 room ∷ (machine_call 7 ++ Mark room ∷ [])))) asm.old) }
{
    load_constant(asm, T0, STACK_FROM + size)?;
    asm.branch(Test::GeU, SP, T0, room)?;
    call_machine(asm, 7)?;
    asm.place(room);
    Ok(())
}

/// The frame is made, and keeps the return address.
#[tactic(auto, using(low_expr::proofs::Emitting::sequences))]
fn make_frame(asm: &mut Asm, size: u32) -> Result<(), AsmFault>
    requires size { size ≤ 2 ^ 16 }
    ensures added { OnOk result (asm.new ≡ emit_all (all_do (constant t0 size
        ++ instr.Sub sp sp t0 ∷ frame_address t2 (4 * last_word size))
        ++ Do (instr.Sw t2 ra (pos 0)) ∷ []) asm.old) }
    ensures too_long { IfErr result
        (IsRefusal (width_of (all_do (constant t0 size ++ instr.Sub sp sp t0 ∷ frame_address t2 (4
        * last_word size)) ++ Do (instr.Sw t2 ra (pos 0)) ∷ [])) asm.old) }
{
    load_constant(asm, T0, size)?;
    add(
        asm,
        &[Instr::Sub {
            rd: SP,
            rs1: SP,
            rs2: T0,
        }],
    )?;
    load_frame_address(asm, T2, 4 * last_word(size))?;
    add(
        asm,
        &[Instr::Sw {
            rs1: T2,
            rs2: RA,
            imm: 0,
        }],
    )
}

/// A function is entered.
#[tactic(auto, using(low_expr::proofs::Emitting::sequences))]
pub(crate) fn enter(asm: &mut Asm, size: u32, room: Label) -> Result<(), AsmFault>
    requires size { size ≤ 2 ^ 16 }
    requires room { room < length asm.old.places }
    ensures added { OnOk result (asm.new ≡ emit_all (enter_code size room) asm.old) }
    ensures too_long { IfErr result (IsRefusal (width_of (enter_code size room)) asm.old) }
{
    test_room(asm, size, room)?;
    make_frame(asm, size)
}

/// A function is left: the frame is given back.
#[tactic(auto, using(low_expr::proofs::Emitting::sequences))]
fn leave(asm: &mut Asm, size: u32) -> Result<(), AsmFault>
    requires size { size ≤ 2 ^ 16 }
    ensures added { OnOk result (asm.new ≡ emit_all (leave_code size) asm.old) }
    ensures too_long { IfErr result (IsRefusal (width_of (leave_code size)) asm.old) }
{
    load_slot(asm, RA, last_word(size))?;
    load_constant(asm, T0, size)?;
    add(
        asm,
        &[Instr::Add {
            rd: SP,
            rs1: SP,
            rs2: T0,
        }],
    )?;
    add(
        asm,
        &[Instr::Jalr {
            rd: X0,
            rs1: RA,
            imm: 0,
        }],
    )
}

/// The end of `main` gives 0.
fn end_main(asm: &mut Asm, is_main: bool) -> Result<(), AsmFault>
    ensures added { OnOk result (asm.new ≡ emit_all (all_do (end_code is_main)) asm.old) }
    ensures too_long { IfErr result (IsRefusal (width_of (all_do (end_code is_main))) asm.old) }
{
    if is_main {
        load_constant(asm, A0, 0)
    } else {
        Ok(())
    }
}

/// What follows the body of a function: its end, and what follows a `return`.
#[tactic(auto, using(low_expr::proofs::Emitting::sequences))]
pub(crate) fn end_fun(
    asm: &mut Asm,
    is_main: bool,
    size: u32,
    end: Label,
    left: Label,
) -> Result<(), AsmFault>
    requires size { size ≤ 2 ^ 16 }
    requires end { end < length asm.old.places }
    requires left { left < length asm.old.places }
    ensures added { OnOk result (asm.new ≡ emit_all (Mark end ∷ (all_do (end_code is_main)
        ++ (Mark left ∷ leave_code size))) asm.old) }
    ensures too_long { IfErr result
        (IsRefusal (width_of (Mark end ∷ (all_do (end_code is_main) ++ (Mark left ∷ leave_code
        size)))) asm.old) }
{
    asm.place(end);
    end_main(asm, is_main)?;
    asm.place(left);
    leave(asm, size)
}

/// An argument into the place of its parameter.
#[tactic(auto, using(low_expr::proofs::Emitting::sequences))]
fn pass_argument(asm: &mut Asm, register: u8, held: Held, place: u32) -> Result<(), AsmFault>
    requires { register < 32 }
    ensures added { OnOk result (asm.new ≡ emit_all (write_code
        (instr.Addi t0 register (pos 0) ∷ frame_address t2 place) held) asm.old) }
    ensures too_long { IfErr result
        (IsRefusal (width_of (write_code (instr.Addi t0 register (pos 0) ∷ frame_address t2 place)
        held)) asm.old) }
{
    add(
        asm,
        &[Instr::Addi {
            rd: T0,
            rs1: register,
            imm: 0,
        }],
    )?;
    load_frame_address(asm, T2, place)?;
    narrow(asm, held)?;
    write(asm, held)
}

/// The arguments, which are in registers, into the places of the parameters.
pub(crate) fn pass_arguments(
    alloc: Global,
    asm: &mut Asm,
    params: &[Param],
    places: &[u32],
) -> Result<(), AsmFault>
    requires { length (map param_of params.now) ≤ 8 }
    ensures added { OnOk result (asm.new
        ≡ emit_all (pass_code a0 places.now (map param_of params.now)) asm.old) }
    ensures few { OnOk result (GrowsAtMost (8 * length (map param_of params.now)) asm.old asm.new) }
    ensures too_long { IfErr result (IsRefusal (8 * length (map param_of params.now)) asm.old) }
{
    let mut rest = places;
    let mut register = A0;
    for p in params {
        let Some(place) = rest.first() else {
            return Ok(());
        };
        let ty = parameter_type(alloc, p)?;
        pass_argument(asm, register, held_of(&ty), *place)?;
        register += 1;
        rest = past(rest, 1);
    }
    Ok(())
}
