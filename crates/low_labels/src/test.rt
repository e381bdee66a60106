//! Tests of branches.

ghost use Rattle.std.specs.Prelude.{◌≡◌, pos};
ghost use Rattle.low_labels.specs.Operation.{unless};

use rv_code::Instr;

/// What a branch tests of two registers: equality, or an order of numbers with their signs or
/// without.
#[derive(Clone, Copy, Debug, PartialEq, Eq)]
pub enum Test {
    Eq,
    Ne,
    Lt,
    Ge,
    LtU,
    GeU,
}

impl Test {
    /// The branch past the next instruction where the test doesn't hold.
    pub(crate) fn unless(self, rs1: u8, rs2: u8) -> Instr
        ensures { result ≡ unless self rs1 rs2 (pos 8) }
    {
        let imm = 8;
        match self {
            Test::Eq => Instr::Bne { rs1, rs2, imm },
            Test::Ne => Instr::Beq { rs1, rs2, imm },
            Test::Lt => Instr::Bge { rs1, rs2, imm },
            Test::Ge => Instr::Blt { rs1, rs2, imm },
            Test::LtU => Instr::Bgeu { rs1, rs2, imm },
            Test::GeU => Instr::Bltu { rs1, rs2, imm },
        }
    }
}
