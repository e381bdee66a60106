//! The word of an instruction.

ghost use Rattle.std.specs.Prelude.{◌≡◌, ◌<◌, ◌^◌};
ghost use Rattle.rv_code.specs.Format.{R, I, S, B, U, J, s_word, b_word, j_word, word_in, IsInRange, imm_bits};
ghost use Rattle.rv_code.specs.Table.{IsInstr, word_of};

use crate::instr::Instr;
use crate::table;
use bop_bits::field;

macro_rules! encoded {
    (
        ($instr:expr)
        ($rd:ident, $rs1:ident, $rs2:ident, $imm:ident, $amount:ident, $upper:ident, $pc:ident, $a:ident, $b:ident)
        registers { $($r:ident, $r_f3:literal, $r_f7:literal, $r_value:expr;)* }
        immediates { $($i:ident, $i_f3:literal, $i_value:expr;)* }
        shifts { $($sh:ident, $sh_f3:literal, $sh_f7:literal, $sh_value:expr;)* }
        loads { $($l:ident, $l_f3:literal, $l_size:literal, $l_signed:literal;)* }
        stores { $($s:ident, $s_f3:literal, $s_size:literal;)* }
        branches { $($br:ident, $br_f3:literal, $br_test:expr;)* }
        uppers { $($u:ident, $u_op:literal, $u_value:expr;)* }
        jumps { $jal:ident, $jal_to:expr; $jalr:ident, $jalr_to:expr; }
        others { $fence:ident, $fence_asks:expr; $ecall:ident, $ecall_asks:expr; $ebreak:ident, $ebreak_asks:expr; }
    ) => {
        match $instr {
            $(Instr::$r { $rd, $rs1, $rs2 } => register_word(0x33, $r_f3, $r_f7, *$rd, *$rs1, *$rs2),)*
            $(Instr::$i { $rd, $rs1, $imm } => immediate_word(0x13, $i_f3, *$rd, *$rs1, *$imm),)*
            $(Instr::$sh { $rd, $rs1, $amount } => register_word(0x13, $sh_f3, $sh_f7, *$rd, *$rs1, *$amount),)*
            $(Instr::$l { $rd, $rs1, $imm } => immediate_word(0x03, $l_f3, *$rd, *$rs1, *$imm),)*
            $(Instr::$s { $rs1, $rs2, $imm } => store_word($s_f3, *$rs1, *$rs2, *$imm),)*
            $(Instr::$br { $rs1, $rs2, $imm } => branch_word($br_f3, *$rs1, *$rs2, *$imm),)*
            $(Instr::$u { $rd, $upper } => upper_word($u_op, *$rd, *$upper),)*
            Instr::$jal { $rd, $imm } => jump_word(*$rd, *$imm),
            Instr::$jalr { $rd, $rs1, $imm } => immediate_word(0x67, 0, *$rd, *$rs1, *$imm),
            Instr::$fence { $rd, $rs1, $imm } => immediate_word(0x0f, 0, *$rd, *$rs1, *$imm),
            Instr::$ecall => 0x0000_0073,
            Instr::$ebreak => 0x0010_0073,
        }
    };
}

/// The word of an instruction, by the table of the RISC-V manual.
pub fn encode(instr: &Instr) -> u32
    requires { IsInstr instr.now }
    ensures { result ≡ word_of instr.now }
{
    table!(encoded(instr))
}

/// The R format, and that of shifts by an amount.
fn register_word(opcode: u32, funct3: u32, funct7: u32, rd: u8, rs1: u8, rs2: u8) -> u32
    requires opcode { opcode < 128 }
    requires funct3 { funct3 < 8 }
    requires funct7 { funct7 < 128 }
    requires fields { IsInRange (R opcode funct3 funct7 rd rs1 rs2) }
    ensures { result ≡ word_in (R opcode funct3 funct7 rd rs1 rs2) }
{
    funct7 * 0x200_0000
        + u32::from(rs2) * 0x10_0000
        + u32::from(rs1) * 0x8000
        + funct3 * 0x1000
        + u32::from(rd) * 0x80
        + opcode
}

/// The I format.
fn immediate_word(opcode: u32, funct3: u32, rd: u8, rs1: u8, imm: i32) -> u32
    requires opcode { opcode < 128 }
    requires funct3 { funct3 < 8 }
    requires fields { IsInRange (I opcode funct3 rd rs1 imm) }
    ensures { result ≡ word_in (I opcode funct3 rd rs1 imm) }
{
    imm.cast_unsigned() % 0x1000 * 0x10_0000
        + u32::from(rs1) * 0x8000
        + funct3 * 0x1000
        + u32::from(rd) * 0x80
        + opcode
}

/// The S format, opcode 0x23.
fn store_word(funct3: u32, rs1: u8, rs2: u8, imm: i32) -> u32
    requires funct3 { funct3 < 8 }
    requires fields { IsInRange (S 35 funct3 rs1 rs2 imm) }
    ensures { result ≡ word_in (S 35 funct3 rs1 rs2 imm) }
{
    let bits = imm.cast_unsigned() % 0x1000;
    field::<5, 7>(bits) * 0x200_0000
        + u32::from(rs2) * 0x10_0000
        + u32::from(rs1) * 0x8000
        + funct3 * 0x1000
        + field::<0, 5>(bits) * 0x80
        + 0x23
}

/// The B format, opcode 0x63.
fn branch_word(funct3: u32, rs1: u8, rs2: u8, imm: i32) -> u32
    requires funct3 { funct3 < 8 }
    requires fields { IsInRange (B 99 funct3 rs1 rs2 imm) }
    ensures { result ≡ word_in (B 99 funct3 rs1 rs2 imm) }
{
    let bits = imm.cast_unsigned() % 0x2000;
    field::<12, 1>(bits) * 0x8000_0000
        + field::<5, 6>(bits) * 0x200_0000
        + u32::from(rs2) * 0x10_0000
        + u32::from(rs1) * 0x8000
        + funct3 * 0x1000
        + field::<1, 4>(bits) * 0x100
        + field::<11, 1>(bits) * 0x80
        + 0x63
}

/// The U format.
fn upper_word(opcode: u32, rd: u8, upper: u32) -> u32
    requires opcode { opcode < 128 }
    requires fields { IsInRange (U opcode rd upper) }
    ensures { result ≡ word_in (U opcode rd upper) }
{
    upper * 0x1000 + u32::from(rd) * 0x80 + opcode
}

/// The J format, opcode 0x6f.
fn jump_word(rd: u8, imm: i32) -> u32
    requires { IsInRange (J 111 rd imm) }
    ensures { result ≡ word_in (J 111 rd imm) }
{
    let bits = imm.cast_unsigned() % 0x20_0000;
    field::<20, 1>(bits) * 0x8000_0000
        + field::<1, 10>(bits) * 0x20_0000
        + field::<11, 1>(bits) * 0x10_0000
        + field::<12, 8>(bits) * 0x1000
        + u32::from(rd) * 0x80
        + 0x6f
}
