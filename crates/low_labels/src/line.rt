//! Words of code before labels have their places.

ghost use Rattle.std.specs.Prelude.{◌≡◌, ◌≤◌, length, All};
ghost use Rattle.bop_bits.specs.declared.map.TheConstants.{CODE_WORDS};
ghost use Rattle.rv_code.specs.Table.{IsInstr};
ghost use Rattle.low_labels.specs.Closed.{distance, instr_of_line, place_in};
ghost use Rattle.low_labels.specs.Emission.{IsLine, IsWithin};

use crate::label::Label;
use rv_code::Instr;

/// A word of code: an instruction, or a jump to a label that leaves the next address in a register.
#[derive(Clone, Copy, Debug)]
pub(crate) enum Line {
    Do(Instr),
    Jump(u8, Label),
}

/// The instruction of a word, where it is in the code and where labels are.
pub(crate) fn instr_of(line: Line, at: usize, places: &[Option<usize>]) -> Instr
    requires line { IsLine (length places.now) line }
    requires at { at ≤ CODE_WORDS }
    requires places { All (IsWithin CODE_WORDS) places.now }
    ensures instr { result ≡ instr_of_line (place_in places.now) at line }
    ensures valid { IsInstr result }
{
    match line {
        Line::Do(instr) => instr,
        Line::Jump(rd, to) => {
            let to = places[to.number].unwrap_or(0);
            let imm = distance(at, to);
            Instr::Jal { rd, imm }
        }
    }
}

/// How far a word is from another, in bytes.
fn distance(from: usize, to: usize) -> i32
    requires from { from ≤ CODE_WORDS }
    requires to { to ≤ CODE_WORDS }
    ensures { result ≡ distance from to }
{
    4 * (to as i32 - from as i32)
}
