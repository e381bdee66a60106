//! What an instruction asks of the machine.

ghost use Rattle.std.specs.Prelude.{◌≡◌, ◌<◌};
ghost use Rattle.rv_code.specs.Effects.{branches as branches_of, call_of as call_at};
ghost use Rattle.rv_code.specs.State.{register as register_of};
ghost use Rattle.rv_code.specs.Step.{asks as asks_of};
ghost use Rattle.rv_code.specs.Table.{IsInstr};
ghost use Rattle.rv_code.specs.Asked.{IsEffect};

use crate::arithmetic::{
    left_shift, mixed_upper_product, quotient, remainder, right_shift, signed_less,
    signed_quotient, signed_remainder, signed_right_shift, signed_upper_product, upper_product,
};
use crate::call::A7;
use crate::effect::{Call, Effect};
use crate::instr::Instr;
use crate::table;

macro_rules! asked {
    (
        ($instr:expr, $x:expr, $at_pc:expr)
        ($rd:ident, $rs1:ident, $rs2:ident, $imm:ident, $amount:ident, $upper:ident, $pc:ident, $a:ident, $b:ident)
        registers { $($r:ident, $r_f3:literal, $r_f7:literal, $r_value:expr;)* }
        immediates { $($i:ident, $i_f3:literal, $i_value:expr;)* }
        shifts { $($sh:ident, $sh_f3:literal, $sh_f7:literal, $sh_value:expr;)* }
        loads { $($l:ident, $l_f3:literal, $l_size:literal, $l_signed:literal;)* }
        stores { $($s:ident, $s_f3:literal, $s_size:literal;)* }
        branches { $($br:ident, $br_f3:literal, $br_test:expr;)* }
        uppers { $($u:ident, $u_op:literal, $u_value:expr;)* }
        jumps { $jal:ident, $jal_to:expr; $jalr:ident, $jalr_to:expr; }
        others { $fence:ident, $fence_asks:expr; $ecall:ident, $ecall_asks:expr; $ebreak:ident, $ebreak_asks:expr; }
    ) => {{
        let $pc = $at_pc;
        match $instr {
            $(Instr::$r { $rd, $rs1, $rs2 } => {
                let ($a, $b) = (register($x, *$rs1), register($x, *$rs2));
                Effect::Sets { rd: *$rd, value: $r_value }
            })*
            $(Instr::$i { $rd, $rs1, $imm } => {
                let ($a, $b) = (register($x, *$rs1), $imm.cast_unsigned());
                Effect::Sets { rd: *$rd, value: $i_value }
            })*
            $(Instr::$sh { $rd, $rs1, $amount } => {
                let ($a, $b) = (register($x, *$rs1), u32::from(*$amount));
                Effect::Sets { rd: *$rd, value: $sh_value }
            })*
            $(Instr::$l { $rd, $rs1, $imm } => {
                let at = register($x, *$rs1).wrapping_add($imm.cast_unsigned());
                Effect::Loads { rd: *$rd, at, size: $l_size, signed: $l_signed }
            })*
            $(Instr::$s { $rs1, $rs2, $imm } => {
                let at = register($x, *$rs1).wrapping_add($imm.cast_unsigned());
                Effect::Stores { at, size: $s_size, value: register($x, *$rs2) }
            })*
            $(Instr::$br { $rs1, $rs2, $imm } => {
                let ($a, $b) = (register($x, *$rs1), register($x, *$rs2));
                branches($br_test, $pc.wrapping_add($imm.cast_unsigned()))
            })*
            $(Instr::$u { $rd, $upper } => {
                let $b = *$upper * 0x1000;
                Effect::Sets { rd: *$rd, value: $u_value }
            })*
            Instr::$jal { $rd, $imm } => {
                let $b = $imm.cast_unsigned();
                Effect::Links { rd: *$rd, to: $jal_to }
            }
            Instr::$jalr { $rd, $rs1, $imm } => {
                let ($a, $b) = (register($x, *$rs1), $imm.cast_unsigned());
                Effect::Links { rd: *$rd, to: $jalr_to }
            }
            Instr::$fence { .. } => $fence_asks,
            Instr::$ecall => {
                let $a = register($x, A7);
                $ecall_asks
            }
            Instr::$ebreak => $ebreak_asks,
        }
    }};
}

/// What an instruction asks for, where registers and pc are these.
pub fn asks(instr: &Instr, x: &[u32; 32], pc: u32) -> Effect
    requires { IsInstr instr.now }
    ensures value { result ≡ asks_of instr.now x.now pc }
    ensures fits { IsEffect result }
{
    table!(asked(instr, x, pc))
}

/// What a register reads as.
pub fn register(x: &[u32; 32], r: u8) -> u32
    requires { r < 32 }
    ensures { result ≡ register_of x.now r }
{
    if r == 0 { 0 } else { x[r as usize] }
}

fn branches(taken: bool, to: u32) -> Effect
    ensures value { result ≡ branches_of taken to }
    ensures fits { IsEffect result }
{
    if taken {
        Effect::Jumps { to }
    } else {
        Effect::Proceeds
    }
}

/// The call of a number.
fn call_of(number: u32) -> Call
    ensures { result ≡ call_at number }
{
    match number {
        0 => Call::Exit,
        1 => Call::Get,
        2 => Call::Put,
        3 => Call::Begin,
        4 => Call::End,
        5 => Call::Post,
        6 => Call::Wait,
        7 => Call::StackFull,
        _ => Call::Unknown,
    }
}
