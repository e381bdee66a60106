//! The registers that an instruction reads.

ghost use Rattle.std.specs.Prelude.{◌≡◌, ◌<◌};
ghost use Rattle.rv_code.specs.Table.{IsInstr, first_register, second_register};

use crate::call::A7;
use crate::instr::Instr;
use crate::table;

macro_rules! read {
    (
        ($instr:expr)
        ($rd:ident, $rs1:ident, $rs2:ident, $imm:ident, $amount:ident, $upper:ident, $pc:ident, $a:ident, $b:ident)
        registers { $($r:ident, $r_f3:literal, $r_f7:literal, $r_value:expr;)* }
        immediates { $($i:ident, $i_f3:literal, $i_value:expr;)* }
        shifts { $($sh:ident, $sh_f3:literal, $sh_f7:literal, $sh_value:expr;)* }
        loads { $($l:ident, $l_f3:literal, $l_size:literal, $l_signed:literal;)* }
        stores { $($s:ident, $s_f3:literal, $s_size:literal;)* }
        branches { $($br:ident, $br_f3:literal, $br_test:expr;)* }
        uppers { $($u:ident, $u_op:literal, $u_value:expr;)* }
        jumps { $jal:ident, $jal_to:expr; $jalr:ident, $jalr_to:expr; }
        others { $fence:ident, $fence_asks:expr; $ecall:ident, $ecall_asks:expr; $ebreak:ident, $ebreak_asks:expr; }
    ) => {
        match $instr {
            $(Instr::$r { $rs1, $rs2, .. } => (*$rs1, *$rs2),)*
            $(Instr::$i { $rs1, .. } => (*$rs1, 0),)*
            $(Instr::$sh { $rs1, .. } => (*$rs1, 0),)*
            $(Instr::$l { $rs1, .. } => (*$rs1, 0),)*
            $(Instr::$s { $rs1, $rs2, .. } => (*$rs1, *$rs2),)*
            $(Instr::$br { $rs1, $rs2, .. } => (*$rs1, *$rs2),)*
            $(Instr::$u { .. } => (0, 0),)*
            Instr::$jal { .. } => (0, 0),
            Instr::$jalr { $rs1, .. } => (*$rs1, 0),
            Instr::$fence { .. } => (0, 0),
            Instr::$ecall => (A7, 0),
            Instr::$ebreak => (0, 0),
        }
    };
}

/// The registers whose values an instruction asks with, x0 where there is none.
pub fn operands(instr: &Instr) -> (u8, u8)
    requires { IsInstr instr.now }
    ensures first { result.0 ≡ first_register instr.now }
    ensures second { result.1 ≡ second_register instr.now }
    ensures first_fits { result.0 < 32 }
    ensures second_fits { result.1 < 32 }
{
    table!(read(instr))
}
