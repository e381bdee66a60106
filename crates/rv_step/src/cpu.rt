//! Registers, pc and input cursor.

ghost use Rattle.std.specs.Prelude.{◌≡◌, ◌<◌};
ghost use Rattle.rv_code.specs.State.{with_register};
ghost use Rattle.rv_code.specs.Word.{sum};

/// Registers, pc and input cursor.
#[derive(Clone, Copy, Debug, PartialEq, Eq)]
pub struct Cpu {
    pub x: [u32; 32],
    pub pc: u32,
    pub cursor: u32,
}

impl Cpu {
    /// Writes a register; a write to x0 is lost.
    pub fn write(&mut self, r: u8, value: u32)
        requires { r < 32 }
        ensures { self.new ≡ record self.old { x = with_register self.old.x r value } }
    {
        if r != 0 {
            self.x[r as usize] = value;
        }
    }

    /// Goes on at the next instruction.
    pub fn go_on(&mut self)
        ensures { self.new ≡ record self.old { pc = sum self.old.pc 4 } }
    {
        self.pc = self.pc.wrapping_add(4);
    }
}
