//! Where statements go: the labels of functions, of loops and of branches.

ghost use Rattle.std.specs.Prelude.{◌≡◌, ◌+◌, length, IfErr, IfOk, OnOk};
ghost use Rattle.low_labels.specs.declared.fault.AsmFault.TheVariants.{OutOfMemory};
ghost use Rattle.low_expr.specs.Lowering.{fresh_by};
ghost use Rattle.low_stmt.specs.FunCode.{targets_from};
ghost use Rattle.low_stmt.specs.StmtCode.{in_loop};

use low_labels::{Asm, AsmFault, Label};

/// The labels that a statement goes to where it doesn't end normally.
#[derive(Clone, Copy, Debug)]
pub struct Targets {
    pub at_break: Label,
    pub at_continue: Label,
    pub at_return: Label,
}

/// The labels of an `if`: of the branch that may be left out, and of what follows.
#[derive(Clone, Copy, Debug)]
pub(crate) struct Branches {
    pub(crate) other: Label,
    pub(crate) end: Label,
}

/// The labels of a loop: of a turn, of what follows a turn, and of what follows the loop.
#[derive(Clone, Copy, Debug)]
pub(crate) struct Loop {
    pub(crate) turn: Label,
    pub(crate) next: Label,
    pub(crate) end: Label,
}

impl Loop {
    /// Where statements within the loop go.
    pub(crate) fn within(&self, to: &Targets) -> Targets
        requires next { self.now.next ≡ self.now.turn + 1 }
        requires end { self.now.end ≡ self.now.turn + 2 }
        ensures { result ≡ in_loop self.now.turn to.now }
    {
        Targets {
            at_break: self.end,
            at_continue: self.next,
            at_return: to.at_return,
        }
    }
}

/// New labels for an `if`.
pub(crate) fn make_branches(asm: &mut Asm) -> Result<Branches, AsmFault>
    ensures other { IfOk result (λ labels. labels.other ≡ length asm.old.places) }
    ensures end { IfOk result (λ labels. labels.end ≡ length asm.old.places + 1) }
    ensures made { OnOk result (asm.new ≡ fresh_by 2 asm.old) }
    ensures lack { IfErr result (λ fault. fault ≡ OutOfMemory) }
{
    let other = asm.label()?;
    let end = asm.label()?;
    Ok(Branches { other, end })
}

/// New labels for a loop.
pub(crate) fn make_loop(asm: &mut Asm) -> Result<Loop, AsmFault>
    ensures turn { IfOk result (λ labels. labels.turn ≡ length asm.old.places) }
    ensures next { IfOk result (λ labels. labels.next ≡ length asm.old.places + 1) }
    ensures end { IfOk result (λ labels. labels.end ≡ length asm.old.places + 2) }
    ensures made { OnOk result (asm.new ≡ fresh_by 3 asm.old) }
    ensures lack { IfErr result (λ fault. fault ≡ OutOfMemory) }
{
    let turn = asm.label()?;
    let next = asm.label()?;
    let end = asm.label()?;
    Ok(Loop { turn, next, end })
}

/// The labels of a function beside its own: of the room that it needs, of the end of its body, and
/// of what follows a `return`.
#[derive(Clone, Copy, Debug)]
pub(crate) struct Exits {
    pub(crate) room: Label,
    pub(crate) end: Label,
    pub(crate) left: Label,
}

impl Exits {
    /// Where the statements of the function go.
    pub(crate) fn targets(&self) -> Targets
        requires end { self.now.end ≡ self.now.room + 1 }
        requires left { self.now.left ≡ self.now.room + 2 }
        ensures { result ≡ targets_from self.now.room }
    {
        Targets {
            at_break: self.end,
            at_continue: self.end,
            at_return: self.left,
        }
    }
}

/// New labels for a function.
pub(crate) fn make_exits(asm: &mut Asm) -> Result<Exits, AsmFault>
    ensures room { IfOk result (λ labels. labels.room ≡ length asm.old.places) }
    ensures end { IfOk result (λ labels. labels.end ≡ length asm.old.places + 1) }
    ensures left { IfOk result (λ labels. labels.left ≡ length asm.old.places + 2) }
    ensures made { OnOk result (asm.new ≡ fresh_by 3 asm.old) }
    ensures lack { IfErr result (λ fault. fault ≡ OutOfMemory) }
{
    let room = asm.label()?;
    let end = asm.label()?;
    let left = asm.label()?;
    Ok(Exits { room, end, left })
}
