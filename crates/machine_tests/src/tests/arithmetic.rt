//! Results of instructions, as the manual's text has them.

use crate::tests::jobs::{blank, step};
use std::test::Fail;

/// Name, funct3, funct7, values of rs1 and rs2, result.
#[test]
fn two_registers_have_a_result(rt: HostRuntime) -> Result<(), Fail> {
    let rows: [(&str, u32, u32, u32, u32, u32); 50] = [
        ("ADD", 0, 0x00, 0x7fff_ffff, 0x0000_0001, 0x8000_0000),
        ("ADD", 0, 0x00, 0xffff_ffff, 0x0000_0002, 0x0000_0001),
        ("SUB", 0, 0x20, 0x0000_0000, 0x0000_0001, 0xffff_ffff),
        ("SUB", 0, 0x20, 0x8000_0000, 0x0000_0001, 0x7fff_ffff),
        ("SLL", 1, 0x00, 0x0000_0001, 0x0000_001f, 0x8000_0000),
        ("SLL", 1, 0x00, 0x0000_0003, 0x0000_0021, 0x0000_0006),
        ("SLL", 1, 0x00, 0x8000_0000, 0x0000_0001, 0x0000_0000),
        ("SLT", 2, 0x00, 0xffff_ffff, 0x0000_0000, 0x0000_0001),
        ("SLT", 2, 0x00, 0x0000_0000, 0xffff_ffff, 0x0000_0000),
        ("SLT", 2, 0x00, 0x8000_0000, 0x7fff_ffff, 0x0000_0001),
        ("SLT", 2, 0x00, 0x0000_0005, 0x0000_0005, 0x0000_0000),
        ("SLTU", 3, 0x00, 0xffff_ffff, 0x0000_0000, 0x0000_0000),
        ("SLTU", 3, 0x00, 0x0000_0000, 0xffff_ffff, 0x0000_0001),
        ("SLTU", 3, 0x00, 0x8000_0000, 0x7fff_ffff, 0x0000_0000),
        ("XOR", 4, 0x00, 0xff00_ff00, 0x0ff0_0ff0, 0xf0f0_f0f0),
        ("SRL", 5, 0x00, 0x8000_0000, 0x0000_001f, 0x0000_0001),
        ("SRL", 5, 0x00, 0xffff_ffff, 0x0000_0024, 0x0fff_ffff),
        ("SRA", 5, 0x20, 0x8000_0000, 0x0000_001f, 0xffff_ffff),
        ("SRA", 5, 0x20, 0xffff_fff0, 0x0000_0002, 0xffff_fffc),
        ("SRA", 5, 0x20, 0x7fff_ffff, 0x0000_001e, 0x0000_0001),
        ("OR", 6, 0x00, 0xf0f0_0000, 0x0000_f0f0, 0xf0f0_f0f0),
        ("AND", 7, 0x00, 0xff00_ff00, 0x0ff0_0ff0, 0x0f00_0f00),
        ("MUL", 0, 0x01, 0x0001_0001, 0x0001_0001, 0x0002_0001),
        ("MUL", 0, 0x01, 0xffff_ffff, 0xffff_ffff, 0x0000_0001),
        ("MULH", 1, 0x01, 0xffff_ffff, 0xffff_ffff, 0x0000_0000),
        ("MULH", 1, 0x01, 0x8000_0000, 0x8000_0000, 0x4000_0000),
        ("MULH", 1, 0x01, 0x8000_0000, 0x0000_0001, 0xffff_ffff),
        ("MULH", 1, 0x01, 0x8000_0000, 0x7fff_ffff, 0xc000_0000),
        ("MULHSU", 2, 0x01, 0xffff_ffff, 0xffff_ffff, 0xffff_ffff),
        ("MULHSU", 2, 0x01, 0x8000_0000, 0x0000_0002, 0xffff_ffff),
        ("MULHSU", 2, 0x01, 0x0000_0002, 0x8000_0000, 0x0000_0001),
        ("MULHSU", 2, 0x01, 0x7fff_ffff, 0xffff_ffff, 0x7fff_fffe),
        ("MULHU", 3, 0x01, 0xffff_ffff, 0xffff_ffff, 0xffff_fffe),
        ("MULHU", 3, 0x01, 0x8000_0000, 0x0000_0002, 0x0000_0001),
        ("DIV", 4, 0x01, 0x0000_0007, 0x0000_0000, 0xffff_ffff),
        ("DIV", 4, 0x01, 0xffff_fff9, 0x0000_0002, 0xffff_fffd),
        ("DIV", 4, 0x01, 0x0000_0007, 0xffff_fffe, 0xffff_fffd),
        ("DIV", 4, 0x01, 0x8000_0000, 0xffff_ffff, 0x8000_0000),
        ("DIV", 4, 0x01, 0x8000_0000, 0x0000_0000, 0xffff_ffff),
        ("DIVU", 5, 0x01, 0x0000_0007, 0x0000_0000, 0xffff_ffff),
        ("DIVU", 5, 0x01, 0xffff_ffff, 0x0000_0002, 0x7fff_ffff),
        ("DIVU", 5, 0x01, 0x8000_0000, 0xffff_ffff, 0x0000_0000),
        ("REM", 6, 0x01, 0x0000_0007, 0x0000_0000, 0x0000_0007),
        ("REM", 6, 0x01, 0xffff_fff9, 0x0000_0002, 0xffff_ffff),
        ("REM", 6, 0x01, 0x0000_0007, 0xffff_fffe, 0x0000_0001),
        ("REM", 6, 0x01, 0x8000_0000, 0xffff_ffff, 0x0000_0000),
        ("REM", 6, 0x01, 0x8000_0000, 0x0000_0000, 0x8000_0000),
        ("REMU", 7, 0x01, 0x0000_0007, 0x0000_0000, 0x0000_0007),
        ("REMU", 7, 0x01, 0xffff_ffff, 0x0000_0002, 0x0000_0001),
        ("REMU", 7, 0x01, 0x8000_0000, 0xffff_ffff, 0x8000_0000),
    ];
    let mut state = blank(rt.alloc()).ok_or("no memory")?;
    for (name, funct3, funct7, a, b, value) in rows {
        let word = (funct7 << 25) | (2 << 20) | (1 << 15) | (funct3 << 12) | (3 << 7) | 0x33;
        step(rt.alloc(), &mut state, word, a, b).ok_or("no memory")?;
        let x3 = state.cpu.x[3];
        assert_eq!(rt; x3, value, "{} {} {}", name, a, b);
    }
    Ok(())
}

/// Name, funct3, upper 12 bits, value of rs1, result.
#[test]
fn a_register_and_an_immediate_have_a_result(rt: HostRuntime) -> Result<(), Fail> {
    let rows: [(&str, u32, u32, u32, u32); 18] = [
        ("ADDI", 0, 0xfff, 0x0000_0000, 0xffff_ffff),
        ("ADDI", 0, 0x001, 0x7fff_ffff, 0x8000_0000),
        ("SLTI", 2, 0x000, 0xffff_ffff, 0x0000_0001),
        ("SLTI", 2, 0xfff, 0x0000_0000, 0x0000_0000),
        ("SLTI", 2, 0x7ff, 0x8000_0000, 0x0000_0001),
        ("SLTIU", 3, 0xfff, 0x0000_0000, 0x0000_0001),
        ("SLTIU", 3, 0xfff, 0xffff_ffff, 0x0000_0000),
        ("SLTIU", 3, 0x001, 0x0000_0000, 0x0000_0001),
        ("XORI", 4, 0xfff, 0x0f0f_0f0f, 0xf0f0_f0f0),
        ("ORI", 6, 0x00f, 0x0000_00f0, 0x0000_00ff),
        ("ORI", 6, 0x800, 0x0000_0000, 0xffff_f800),
        ("ANDI", 7, 0x0ff, 0x0000_01ff, 0x0000_00ff),
        ("ANDI", 7, 0xff0, 0xffff_ffff, 0xffff_fff0),
        ("SLLI", 1, 0x01f, 0x0000_0001, 0x8000_0000),
        ("SLLI", 1, 0x000, 0x0000_0003, 0x0000_0003),
        ("SRLI", 5, 0x01f, 0x8000_0000, 0x0000_0001),
        ("SRAI", 5, 0x41f, 0x8000_0000, 0xffff_ffff),
        ("SRAI", 5, 0x41e, 0x7fff_ffff, 0x0000_0001),
    ];
    let mut state = blank(rt.alloc()).ok_or("no memory")?;
    for (name, funct3, upper, a, value) in rows {
        let word = (upper << 20) | (1 << 15) | (funct3 << 12) | (3 << 7) | 0x13;
        step(rt.alloc(), &mut state, word, a, 0).ok_or("no memory")?;
        let x3 = state.cpu.x[3];
        assert_eq!(rt; x3, value, "{} {} {}", name, upper, a);
    }
    Ok(())
}

/// The first instruction is at 0x10000. x0 reads as 0, and a write to it is lost.
#[test]
fn single_words_have_a_result(rt: HostRuntime) -> Result<(), Fail> {
    let rows = [
        ("LUI x3, 0x12345", 0x1234_51b7, 0x1234_5000),
        ("LUI x3, 0xfffff", 0xffff_f1b7, 0xffff_f000),
        ("AUIPC x3, 0xfffff", 0xffff_f197, 0x0000_f000),
        ("FENCE", 0x0ff0_000f, 0),
        ("ADDI x3, x0, 7", 0x0070_0193, 7),
        ("ADDI x0, x1, 7", 0x0070_8013, 0),
        ("ADD x3, x0, x0", 0x0000_01b3, 0),
    ];
    let mut state = blank(rt.alloc()).ok_or("no memory")?;
    for (name, word, value) in rows {
        step(rt.alloc(), &mut state, word, 5, 6).ok_or("no memory")?;
        let x3 = state.cpu.x[3];
        assert_eq!(rt; x3, value, "{}", name);
    }
    Ok(())
}
