//! Instructions and their words.

use rv_code::{Instr, decode, encode};

/// As an assembler writes them.
#[test]
fn known_words_are_read_and_written(rt: HostRuntime) {
    let rows = [
        (
            0x0050_0093,
            Instr::Addi {
                rd: 1,
                rs1: 0,
                imm: 5,
            },
        ),
        (
            0xfff0_0513,
            Instr::Addi {
                rd: 10,
                rs1: 0,
                imm: -1,
            },
        ),
        (
            0x1234_52b7,
            Instr::Lui {
                rd: 5,
                upper: 0x12345,
            },
        ),
        (
            0x4020_81b3,
            Instr::Sub {
                rd: 3,
                rs1: 1,
                rs2: 2,
            },
        ),
        (
            0x0020_8463,
            Instr::Beq {
                rs1: 1,
                rs2: 2,
                imm: 8,
            },
        ),
        (
            0x0020_a223,
            Instr::Sw {
                rs1: 1,
                rs2: 2,
                imm: 4,
            },
        ),
        (
            0xfe20_afa3,
            Instr::Sw {
                rs1: 1,
                rs2: 2,
                imm: -1,
            },
        ),
        (0x0100_00ef, Instr::Jal { rd: 1, imm: 16 }),
        (0xffdf_f06f, Instr::Jal { rd: 0, imm: -4 }),
        (
            0x0273_42b3,
            Instr::Div {
                rd: 5,
                rs1: 6,
                rs2: 7,
            },
        ),
        (
            0x0000_8067,
            Instr::Jalr {
                rd: 0,
                rs1: 1,
                imm: 0,
            },
        ),
        (
            0x01f0_9093,
            Instr::Slli {
                rd: 1,
                rs1: 1,
                amount: 31,
            },
        ),
        (
            0x41f0_d093,
            Instr::Srai {
                rd: 1,
                rs1: 1,
                amount: 31,
            },
        ),
        (
            0x8000_00e3,
            Instr::Beq {
                rs1: 0,
                rs2: 0,
                imm: -2048,
            },
        ),
        (
            0x0ff0_000f,
            Instr::Fence {
                rd: 0,
                rs1: 0,
                imm: 255,
            },
        ),
        (0x0000_0073, Instr::Ecall),
        (0x0010_0073, Instr::Ebreak),
    ];
    for (word, instr) in rows {
        let read = decode(word);
        assert_eq!(rt; read, Some(instr));
        if let Some(read) = read {
            assert_eq!(rt; encode(&read), word);
        }
    }
}

/// No opcode, another funct3 or funct7, no call.
#[test]
fn words_outside_the_table_are_none(rt: HostRuntime) {
    let rows = [
        0,
        0xffff_ffff,
        0x0000_1067,
        0x0000_2063,
        0x0000_3003,
        0x0000_3023,
        0x0200_1013,
        0x4000_1013,
        0x4000_2033,
        0x0400_0033,
        0x0000_100f,
        0x0020_0073,
        0x0000_00f3,
    ];
    for word in rows {
        assert_eq!(rt; decode(word), None, "{}", word);
    }
}
