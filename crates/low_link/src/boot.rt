//! The beginning of a program.

ghost use Rattle.std.specs.Prelude.{◌≡◌, ◌<◌, length, IfErr, OnOk};
ghost use Rattle.low_labels.specs.declared.fault.AsmFault.TheVariants.{CodeTooLong};
ghost use Rattle.low_labels.specs.Emission.{emit_all, IsTooLong};
ghost use Rattle.low_labels.specs.Operation.{width_of};
ghost use Rattle.low_stmt.specs.TextCode.{boot_code};

use bop_bits::STACK_TO;
use low_expr::{RA, SP, call_machine, load_constant};
use low_labels::{Asm, AsmFault, Label};

/// A call of `main` with an empty stack, whose value the program exits with.
#[tactic(auto, using(low_expr::proofs::Emitting::sequences))]
pub(crate) fn lower_boot(asm: &mut Asm, main: Label) -> Result<(), AsmFault>
    requires { main < length asm.old.places }
    ensures added { OnOk result (asm.new ≡ emit_all (boot_code main) asm.old) }
    ensures too_long { IfErr result
        (λ fault. fault ≡ CodeTooLong → IsTooLong (width_of (boot_code main)) asm.old) }
{
    load_constant(asm, SP, STACK_TO)?;
    asm.jump(RA, main)?;
    call_machine(asm, 0)
}
