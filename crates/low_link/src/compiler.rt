//! The program of a text.

ghost use Rattle.std.specs.Prelude.{◌≡◌, ◌≤◌, ◌-◌, IfErr, IfOk, length};
ghost use Rattle.bop_bits.specs.declared.map.TheConstants.{CODE_WORDS, DATA_FROM, STACK_FROM};
ghost use Rattle.c_token.specs.declared.limits.TheConstants.{TEXT_BYTES};
ghost use Rattle.c_tree.specs.View.{items_of};
ghost use Rattle.c_layout.specs.Laid.{plan};
ghost use Rattle.c_layout.specs.LayoutAnswers.{plan_of};
ghost use Rattle.low_labels.specs.declared.fault.AsmFault.TheVariants.{OutOfMemory};
ghost use Rattle.low_stmt.specs.declared.count.TheConstants.{MOST_PARTS};
ghost use Rattle.low_stmt.specs.CodeBound.{count_text};
ghost use Rattle.low_stmt.specs.DefinedOnce.{AreDefinedOnce};
ghost use Rattle.low_stmt.specs.TextProgram.{program_of};
ghost use Rattle.low_stmt.specs.TextReadiness.{IsReadyText};
ghost use Rattle.low_link.specs.Compiled.{Compiled};
ghost use Rattle.low_link.specs.Front.{Fits};

use crate::Refused;
use crate::data::data_of;
use crate::stages::source;
use crate::text::lower_text;
use bop_bits::CODE_FROM;
use c_layout::Layout;
use c_tree::Checked;
use low_labels::AsmFault;
use rv_code::{Bytes, Program, Words};
use std::alloc::Global;

/// The program of a checked tree with few parts, by its layout. It is entered at its first word.
fn assemble(alloc: Global, checked: &Checked, layout: &Layout) -> Result<Program, AsmFault>
    requires planned { plan_of layout.now ≡ plan (items_of checked.now.tree) }
    requires fits { Fits (items_of checked.now.tree) }
    requires ready { IsReadyText (items_of checked.now.tree) }
    requires once { AreDefinedOnce (items_of checked.now.tree) }
    requires few { count_text (items_of checked.now.tree) ≤ MOST_PARTS }
    ensures program { IfOk result (λ program. program ≡ program_of (items_of checked.now.tree)) }
    ensures code_fits { IfOk result (λ program. length program.code ≤ CODE_WORDS) }
    ensures data_fits { IfOk result (λ program. length program.bytes ≤ STACK_FROM - DATA_FROM) }
    ensures lack { IfErr result (λ fault. fault ≡ OutOfMemory) }
{
    let lowered = lower_text(alloc, checked, layout)?;
    let ends = lowered.ends;
    let code = lowered.asm.close()?;
    let bytes = data_of(alloc, checked.tree(), layout)?;
    Ok(Program {
        code: Words::of(code),
        bytes: Bytes::of(bytes),
        classes: layout.classes(),
        entry: CODE_FROM,
        ends,
    })
}

/// The program of a text of at most 1,048,576 bytes, or why the text is refused.
pub fn compile(alloc: Global, text: &[u8]) -> Result<Program, Refused>
    requires { length text.now ≤ TEXT_BYTES }
    ensures compiled { Compiled text.now result }
    ensures code_fits { IfOk result (λ program. length program.code ≤ CODE_WORDS) }
    ensures data_fits { IfOk result (λ program. length program.bytes ≤ STACK_FROM - DATA_FROM) }
{
    let (checked, layout) = source(alloc, text)?;
    Ok(assemble(alloc, &checked, &layout)?)
}
