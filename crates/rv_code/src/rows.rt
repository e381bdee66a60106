//! The table of instructions, each row once. What is made of the rows is up to the macro that
//! `table!` is given: `encode`, `decode`, `asks` and `operands` are made of them.
//!
//! A row has an instruction's name, its funct3, its funct7 where it has one, and what it asks for,
//! where `a` is the value of rs1, `b` that of rs2, the immediate or the amount, and `pc` the pc.

#[macro_export]
macro_rules! table {
    ($use:ident $on:tt) => {
        $use! {
            $on (rd, rs1, rs2, imm, amount, upper, pc, a, b)
            // RV32I 2.1, chapter 2.4, and M 2.0, chapter 7: two registers, opcode 0x33
            registers {
                Add, 0, 0x00, a.wrapping_add(b);
                Sub, 0, 0x20, a.wrapping_sub(b);
                Sll, 1, 0x00, left_shift(a, b % 32);
                Slt, 2, 0x00, u32::from(signed_less(a, b));
                Sltu, 3, 0x00, u32::from(a < b);
                Xor, 4, 0x00, a ^ b;
                Srl, 5, 0x00, right_shift(a, b % 32);
                Sra, 5, 0x20, signed_right_shift(a, b % 32);
                Or, 6, 0x00, a | b;
                And, 7, 0x00, a & b;
                Mul, 0, 0x01, a.wrapping_mul(b);
                Mulh, 1, 0x01, signed_upper_product(a, b);
                Mulhsu, 2, 0x01, mixed_upper_product(a, b);
                Mulhu, 3, 0x01, upper_product(a, b);
                Div, 4, 0x01, signed_quotient(a, b);
                Divu, 5, 0x01, quotient(a, b);
                Rem, 6, 0x01, signed_remainder(a, b);
                Remu, 7, 0x01, remainder(a, b);
            }
            // chapter 2.4: a register and an immediate, opcode 0x13
            immediates {
                Addi, 0, a.wrapping_add(b);
                Slti, 2, u32::from(signed_less(a, b));
                Sltiu, 3, u32::from(a < b);
                Xori, 4, a ^ b;
                Ori, 6, a | b;
                Andi, 7, a & b;
            }
            // chapter 2.4: a register and an amount, opcode 0x13
            shifts {
                Slli, 1, 0x00, left_shift(a, b);
                Srli, 5, 0x00, right_shift(a, b);
                Srai, 5, 0x20, signed_right_shift(a, b);
            }
            // chapter 2.6: loads with their size and sign, opcode 0x03
            loads {
                Lb, 0, 1, true;
                Lh, 1, 2, true;
                Lw, 2, 4, false;
                Lbu, 4, 1, false;
                Lhu, 5, 2, false;
            }
            // chapter 2.6: stores with their size, opcode 0x23
            stores {
                Sb, 0, 1;
                Sh, 1, 2;
                Sw, 2, 4;
            }
            // chapter 2.5: branches with their test, opcode 0x63
            branches {
                Beq, 0, a == b;
                Bne, 1, a != b;
                Blt, 4, signed_less(a, b);
                Bge, 5, !signed_less(a, b);
                Bltu, 6, a < b;
                Bgeu, 7, a >= b;
            }
            // chapter 2.4: upper immediates with their opcode
            uppers {
                Lui, 0x37, b;
                Auipc, 0x17, pc.wrapping_add(b);
            }
            // chapter 2.5: jumps with their target, opcodes 0x6f and 0x67
            jumps {
                Jal, pc.wrapping_add(b);
                Jalr, a.wrapping_add(b) / 2 * 2;
            }
            // chapters 2.7 and 2.8: opcode 0x0f, and two words without fields
            others {
                Fence, Effect::Proceeds;
                Ecall, Effect::Calls { which: call_of(a) };
                Ebreak, Effect::Breaks;
            }
        }
    };
}
