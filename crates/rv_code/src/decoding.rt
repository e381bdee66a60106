//! The instruction of a word.

ghost use Rattle.std.specs.Prelude.{◌≡◌, ◌==◌, ◌||◌, if◌then◌else◌, Some, IfSome};
ghost use Rattle.rv_code.specs.declared.instr.Instr.{Instr};
ghost use Rattle.rv_code.specs.declared.instr.Instr.TheVariants.{Jalr, Fence};
ghost use Rattle.rv_code.specs.Decode.{instr_of, instr_at, only_of, register_of, immediate_of, shift_of, load_of, store_of, branch_of};
ghost use Rattle.rv_code.specs.Format.{rd_field, rs1_field, rs2_field, funct3 as funct3_of, funct7 as funct7_of, imm_i as imm_i_of, imm_s as imm_s_of, imm_b as imm_b_of, imm_j as imm_j_of};
ghost use Rattle.rv_code.specs.Table.{IsInstr, word_of};

use crate::instr::Instr;
use crate::table;
use bop_bits::field;

macro_rules! register_decoded {
    (
        ($f3:expr, $f7:expr, $at_rd:expr, $at_rs1:expr, $at_rs2:expr)
        ($rd:ident, $rs1:ident, $rs2:ident, $($names:ident),*)
        registers { $($name:ident, $funct3:literal, $funct7:literal, $value:expr;)* }
        $($rest:tt)*
    ) => {{
        let ($rd, $rs1, $rs2) = ($at_rd, $at_rs1, $at_rs2);
        match ($f3, $f7) {
            $(($funct3, $funct7) => Some(Instr::$name { $rd, $rs1, $rs2 }),)*
            _ => None,
        }
    }};
}

macro_rules! integer_decoded {
    (
        ($f3:expr, $at_rd:expr, $at_rs1:expr, $at_imm:expr, $shift:expr)
        ($rd:ident, $rs1:ident, $rs2:ident, $imm:ident, $($names:ident),*)
        registers $registers:tt
        immediates { $($name:ident, $funct3:literal, $value:expr;)* }
        $($rest:tt)*
    ) => {{
        let ($rd, $rs1, $imm) = ($at_rd, $at_rs1, $at_imm);
        match $f3 {
            $($funct3 => Some(Instr::$name { $rd, $rs1, $imm }),)*
            _ => $shift,
        }
    }};
}

macro_rules! shift_decoded {
    (
        ($f3:expr, $f7:expr, $at_rd:expr, $at_rs1:expr, $at_amount:expr)
        ($rd:ident, $rs1:ident, $rs2:ident, $imm:ident, $amount:ident, $($names:ident),*)
        registers $registers:tt
        immediates $immediates:tt
        shifts { $($name:ident, $funct3:literal, $funct7:literal, $value:expr;)* }
        $($rest:tt)*
    ) => {{
        let ($rd, $rs1, $amount) = ($at_rd, $at_rs1, $at_amount);
        match ($f3, $f7) {
            $(($funct3, $funct7) => Some(Instr::$name { $rd, $rs1, $amount }),)*
            _ => None,
        }
    }};
}

macro_rules! load_decoded {
    (
        ($f3:expr, $at_rd:expr, $at_rs1:expr, $at_imm:expr)
        ($rd:ident, $rs1:ident, $rs2:ident, $imm:ident, $($names:ident),*)
        registers $registers:tt
        immediates $immediates:tt
        shifts $shifts:tt
        loads { $($name:ident, $funct3:literal, $size:literal, $signed:literal;)* }
        $($rest:tt)*
    ) => {{
        let ($rd, $rs1, $imm) = ($at_rd, $at_rs1, $at_imm);
        match $f3 {
            $($funct3 => Some(Instr::$name { $rd, $rs1, $imm }),)*
            _ => None,
        }
    }};
}

macro_rules! store_decoded {
    (
        ($f3:expr, $at_rs1:expr, $at_rs2:expr, $at_imm:expr)
        ($rd:ident, $rs1:ident, $rs2:ident, $imm:ident, $($names:ident),*)
        registers $registers:tt
        immediates $immediates:tt
        shifts $shifts:tt
        loads $loads:tt
        stores { $($name:ident, $funct3:literal, $size:literal;)* }
        $($rest:tt)*
    ) => {{
        let ($rs1, $rs2, $imm) = ($at_rs1, $at_rs2, $at_imm);
        match $f3 {
            $($funct3 => Some(Instr::$name { $rs1, $rs2, $imm }),)*
            _ => None,
        }
    }};
}

macro_rules! branch_decoded {
    (
        ($f3:expr, $at_rs1:expr, $at_rs2:expr, $at_imm:expr)
        ($rd:ident, $rs1:ident, $rs2:ident, $imm:ident, $($names:ident),*)
        registers $registers:tt
        immediates $immediates:tt
        shifts $shifts:tt
        loads $loads:tt
        stores $stores:tt
        branches { $($name:ident, $funct3:literal, $test:expr;)* }
        $($rest:tt)*
    ) => {{
        let ($rs1, $rs2, $imm) = ($at_rs1, $at_rs2, $at_imm);
        match $f3 {
            $($funct3 => Some(Instr::$name { $rs1, $rs2, $imm }),)*
            _ => None,
        }
    }};
}

macro_rules! decoded {
    (
        ($word:expr, $op:expr, $f3:expr, $f7:expr, $at_rd:expr, $at_rs1:expr, $at_rs2:expr)
        ($rd:ident, $rs1:ident, $rs2:ident, $imm:ident, $amount:ident, $upper:ident, $($names:ident),*)
        registers $registers:tt
        immediates $immediates:tt
        shifts $shifts:tt
        loads $loads:tt
        stores $stores:tt
        branches $branches:tt
        uppers { $($u:ident, $u_op:literal, $u_value:expr;)* }
        jumps { $jal:ident, $jal_to:expr; Jalr, $jalr_to:expr; }
        others { Fence, $fence_asks:expr; $ecall:ident, $ecall_asks:expr; $ebreak:ident, $ebreak_asks:expr; }
    ) => {{
        match $op {
            $($u_op => Some(Instr::$u { $rd: $at_rd, $upper: field::<12, 20>($word) }),)*
            0x6f => Some(Instr::$jal { $rd: $at_rd, $imm: imm_j($word) }),
            0x67 => decode_jalr($word, $f3, $at_rd, $at_rs1),
            0x63 => decode_branch($word, $f3, $at_rs1, $at_rs2),
            0x03 => decode_load($word, $f3, $at_rd, $at_rs1),
            0x23 => decode_store($word, $f3, $at_rs1, $at_rs2),
            0x13 => decode_integer($word, $f3, $at_rd, $at_rs1),
            0x33 => decode_register($f3, $f7, $at_rd, $at_rs1, $at_rs2),
            0x0f => decode_fence($word, $f3, $at_rd, $at_rs1),
            _ if $word == 0x0000_0073 => Some(Instr::$ecall),
            _ if $word == 0x0010_0073 => Some(Instr::$ebreak),
            _ => None,
        }
    }};
}

/// The instruction of a word, where the table has one.
pub fn decode(word: u32) -> Option<Instr>
    ensures value { result ≡ instr_of word }

    // An answer is the one instruction with this word; with none, no instruction has it.
    ensures sound { IfSome result (λ instr. IsInstr instr × (word_of instr ≡ word)) }
    ensures complete { (instr : Instr) → IsInstr instr → word_of instr ≡ word
        → result ≡ Some instr }
{
    read_word(word)
}

/// The instruction of a word, by its fields.
fn read_word(word: u32) -> Option<Instr>
    ensures { result ≡ instr_of word }
{
    read_fields(word, field::<0, 7>(word))
}

/// The instruction of a word with this opcode. The macro puts what takes a field into the arms of
/// the opcodes that have it, so that no field is taken before the branch by opcode.
fn read_fields(word: u32, op: u32) -> Option<Instr>
    ensures { result ≡ instr_at word op (rd_field word) (funct3_of word) (rs1_field word)
        (rs2_field word) (funct7_of word) }
{
    table!(decoded(
        word,
        op,
        funct3(word),
        funct7(word),
        rd(word),
        rs1(word),
        rs2(word)
    ))
}

fn funct3(word: u32) -> u32
    ensures { result ≡ funct3_of word }
{
    field::<12, 3>(word)
}

fn funct7(word: u32) -> u32
    ensures { result ≡ funct7_of word }
{
    field::<25, 7>(word)
}

fn rd(word: u32) -> u8
    ensures { result ≡ rd_field word }
{
    field::<7, 5>(word) as u8
}

fn rs1(word: u32) -> u8
    ensures { result ≡ rs1_field word }
{
    field::<15, 5>(word) as u8
}

fn rs2(word: u32) -> u8
    ensures { result ≡ rs2_field word }
{
    field::<20, 5>(word) as u8
}

fn decode_register(f3: u32, f7: u32, rd: u8, rs1: u8, rs2: u8) -> Option<Instr>
    ensures { result ≡ register_of f3 f7 rd rs1 rs2 }
{
    table!(register_decoded(f3, f7, rd, rs1, rs2))
}

/// The one instruction of an opcode that has a funct3 of 0.
fn only(f3: u32, instr: Instr) -> Option<Instr>
    ensures { result ≡ only_of f3 instr }
{
    if f3 == 0 { Some(instr) } else { None }
}

fn decode_jalr(word: u32, f3: u32, rd: u8, rs1: u8) -> Option<Instr>
    ensures { result ≡ only_of f3 (Jalr rd rs1 (imm_i_of word)) }
{
    only(
        f3,
        Instr::Jalr {
            rd,
            rs1,
            imm: imm_i(word),
        },
    )
}

fn decode_fence(word: u32, f3: u32, rd: u8, rs1: u8) -> Option<Instr>
    ensures { result ≡ only_of f3 (Fence rd rs1 (imm_i_of word)) }
{
    only(
        f3,
        Instr::Fence {
            rd,
            rs1,
            imm: imm_i(word),
        },
    )
}

/// Opcode 0x13: an immediate, or an amount of a shift, which stands where rs2 does.
fn decode_integer(word: u32, f3: u32, rd: u8, rs1: u8) -> Option<Instr>
    ensures { result ≡ (if (f3 == 1) || (f3 == 5)
        then shift_of f3 (funct7_of word) rd rs1 (rs2_field word)
        else immediate_of f3 rd rs1 (imm_i_of word)) }
{
    table!(integer_decoded(
        f3,
        rd,
        rs1,
        imm_i(word),
        decode_shift(f3, funct7(word), rd, rs1, rs2(word))
    ))
}

fn decode_shift(f3: u32, f7: u32, rd: u8, rs1: u8, amount: u8) -> Option<Instr>
    ensures { result ≡ shift_of f3 f7 rd rs1 amount }
{
    table!(shift_decoded(f3, f7, rd, rs1, amount))
}

fn decode_load(word: u32, f3: u32, rd: u8, rs1: u8) -> Option<Instr>
    ensures { result ≡ load_of f3 rd rs1 (imm_i_of word) }
{
    table!(load_decoded(f3, rd, rs1, imm_i(word)))
}

fn decode_store(word: u32, f3: u32, rs1: u8, rs2: u8) -> Option<Instr>
    ensures { result ≡ store_of f3 rs1 rs2 (imm_s_of word) }
{
    table!(store_decoded(f3, rs1, rs2, imm_s(word)))
}

fn decode_branch(word: u32, f3: u32, rs1: u8, rs2: u8) -> Option<Instr>
    ensures { result ≡ branch_of f3 rs1 rs2 (imm_b_of word) }
{
    table!(branch_decoded(f3, rs1, rs2, imm_b(word)))
}

/// The immediate of the I format. A shift to the right fills with the sign.
fn imm_i(word: u32) -> i32
    ensures { result ≡ imm_i_of word }
{
    word.cast_signed() >> 20
}

/// The immediate of the S format.
fn imm_s(word: u32) -> i32
    ensures { result ≡ imm_s_of word }
{
    (word.cast_signed() >> 25) * 0x20 + field::<7, 5>(word) as i32
}

/// The immediate of the B format.
fn imm_b(word: u32) -> i32
    ensures { result ≡ imm_b_of word }
{
    let below = field::<7, 1>(word) * 0x800 + field::<25, 6>(word) * 0x20 + field::<8, 4>(word) * 2;
    (word.cast_signed() >> 31) * 0x1000 + below as i32
}

/// The immediate of the J format.
fn imm_j(word: u32) -> i32
    ensures { result ≡ imm_j_of word }
{
    let below = field::<12, 8>(word) * 0x1000
        + field::<20, 1>(word) * 0x800
        + field::<21, 10>(word) * 2;
    (word.cast_signed() >> 31) * 0x10_0000 + below as i32
}
