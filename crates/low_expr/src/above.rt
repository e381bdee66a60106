//! What a node adds above its operands, and its type.

ghost use Rattle.std.specs.Prelude.{◌≡◌, ◌<◌, ◌+◌, true, length, IfOk, IfErr, OnOk};
ghost use Rattle.low_labels.specs.declared.fault.AsmFault.TheVariants.{CodeTooLong};
ghost use Rattle.low_labels.specs.Emission.{emit_all, IsTooLong};
ghost use Rattle.low_labels.specs.Operation.{width_of};
ghost use Rattle.c_tree.specs.Groups.{group};
ghost use Rattle.c_tree.specs.Rules.{is_at, where_right, binary_rule, conditional_rule, assign_rule, index_rule, step_rule, cast_rule};
ghost use Rattle.c_tree.specs.Typing.{one, both, unary_type};
ghost use Rattle.c_tree.specs.View.{ty_of};
ghost use Rattle.c_rules.specs.Seen.{seen_some, is_flat};
ghost use Rattle.c_semantics.specs.Names.{held_by, operand_by};
ghost use Rattle.low_expr.specs.declared.piece.TheConstants.{SLOTS};
ghost use Rattle.low_expr.specs.ExprCode.{on_one, on_two, step_code, assign_code, skips};
ghost use Rattle.low_expr.specs.Lowering.{lowered};
ghost use Rattle.low_expr.specs.Operators.{binary_code, cast_code};
ghost use Rattle.low_expr.specs.Readiness.{OperandFits};
ghost use Rattle.low_expr.specs.private.Wanting.{unary_by, index_by, logic_start, logic_end, conditional_start, conditional_middle, conditional_end};

use crate::finish::{
    add_nothing, add_truth, finish_assign, finish_binary, finish_cast, finish_index,
    finish_index_place, finish_step, finish_unary,
};
use crate::piece::{SLOTS, load_slot};
use crate::register::{T0, X0};
use crate::wanted::Wanted;
use c_resolve::{held_by, index_type, operand_by, unary_type};
use c_rules::{PartRule, Rule, Seen};
use c_tree::{Binary, CType, Group, Step, Unary};
use c_types::where_right;
use low_labels::{Asm, AsmFault, Label, Test};

/// An operator before its operand.
pub(crate) fn above_unary<'a>(
    asm: &mut Asm,
    op: Unary,
    of_place: bool,
    a: Option<Seen<'a>>,
    wanted: Wanted,
    slot: u32,
) -> Result<Option<Seen<'a>>, AsmFault>
    requires flat { of_place ≡ true → is_flat a ≡ true }
    requires slot { slot < SLOTS }
    ensures ty { IfOk result (λ ty. seen_some ty ≡ unary_type op of_place (seen_some a.entry)) }
    ensures flat { IfOk result (λ ty. is_at op ≡ true → is_flat ty ≡ true) }
    ensures added { OnOk result
        (asm.new ≡ emit_all (unary_by wanted op
        (held_by (unary_type op of_place (seen_some a.entry))) slot) asm.old) }
    ensures too_long { IfErr result
        (λ fault. fault ≡ CodeTooLong
        → IsTooLong (width_of (unary_by wanted op
        (held_by (unary_type op of_place (seen_some a.entry))) slot)) asm.old) }
{
    let ty = unary_type(op, of_place, a);
    match wanted {
        Wanted::Value => finish_unary(asm, op, held_by(ty), slot)?,
        Wanted::Place => add_nothing(asm)?,
    }
    Ok(ty)
}

/// `++` or `--`.
pub(crate) fn above_step<'a>(
    asm: &mut Asm,
    how: Step,
    of_place: bool,
    a: Option<Seen<'a>>,
    slot: u32,
) -> Result<Option<Seen<'a>>, AsmFault>
    requires c { OperandFits (operand_by (seen_some a)) }
    requires slot { slot < SLOTS }
    ensures ty { IfOk result
        (λ ty. seen_some ty ≡ where_right of_place (one step_rule (seen_some a.entry))) }
    ensures added { OnOk result
        (asm.new ≡ emit_all (step_code how (operand_by (seen_some a.entry))
        (held_by (seen_some a.entry)) slot) asm.old) }
    ensures too_long { IfErr result
        (λ fault. fault ≡ CodeTooLong
        → IsTooLong (width_of (step_code how (operand_by (seen_some a.entry))
        (held_by (seen_some a.entry)) slot)) asm.old) }
{
    finish_step(asm, how, operand_by(a)?, held_by(a), slot)?;
    Ok(where_right(of_place, PartRule::Step.one(a)))
}

/// A cast.
pub(crate) fn above_cast<'a>(
    asm: &mut Asm,
    to: &'a CType,
    a: Option<Seen<'a>>,
    slot: u32,
) -> Result<Option<Seen<'a>>, AsmFault>
    requires slot { slot < SLOTS }
    ensures ty { IfOk result
        (λ ty. seen_some ty ≡ one (cast_rule (ty_of to.now)) (seen_some a.entry)) }
    ensures added { OnOk result
        (asm.new ≡ emit_all (on_one slot (cast_code (ty_of to.now))) asm.old) }
    ensures too_long { IfErr result
        (λ fault. fault ≡ CodeTooLong
        → IsTooLong (width_of (on_one slot (cast_code (ty_of to.now)))) asm.old) }
{
    finish_cast(asm, to, slot)?;
    Ok(PartRule::Cast(to).one(a))
}

/// An operator between two values, and which of its operands are the literal 0.
pub(crate) fn above_binary<'a>(
    asm: &mut Asm,
    op: Binary,
    noughts: (bool, bool),
    a: Option<Seen<'a>>,
    b: Option<Seen<'a>>,
    slot: u32,
) -> Result<Option<Seen<'a>>, AsmFault>
    requires c { OperandFits (operand_by (seen_some a)) }
    requires d { OperandFits (operand_by (seen_some b)) }
    requires slot { slot + 1 < SLOTS }
    ensures ty { IfOk result
        (λ ty. seen_some ty ≡ both (binary_rule op noughts.0 noughts.1) (seen_some a.entry)
        (seen_some b.entry)) }
    ensures added { OnOk result
        (asm.new ≡ emit_all (on_two slot
        (binary_code op (operand_by (seen_some a.entry)) (operand_by (seen_some b.entry))))
        asm.old) }
    ensures too_long { IfErr result
        (λ fault. fault ≡ CodeTooLong
        → IsTooLong (width_of (on_two slot
        (binary_code op (operand_by (seen_some a.entry))
        (operand_by (seen_some b.entry))))) asm.old) }
{
    finish_binary(asm, op, operand_by(a)?, operand_by(b)?, slot)?;
    Ok(Rule::Binary(op, noughts.0, noughts.1).both(a, b))
}

/// An assignment, and whether its right side is the literal 0.
pub(crate) fn above_assign<'a>(
    asm: &mut Asm,
    rule: (Option<Binary>, bool),
    to_place: bool,
    a: Option<Seen<'a>>,
    b: Option<Seen<'a>>,
    slot: u32,
) -> Result<Option<Seen<'a>>, AsmFault>
    requires c { OperandFits (operand_by (seen_some a)) }
    requires d { OperandFits (operand_by (seen_some b)) }
    requires slot { slot + 1 < SLOTS }
    ensures ty { IfOk result
        (λ ty. seen_some ty ≡ where_right to_place
        (both (assign_rule rule.0 rule.1) (seen_some a.entry) (seen_some b.entry))) }
    ensures added { OnOk result
        (asm.new ≡ emit_all (assign_code rule.0 (operand_by (seen_some a.entry))
        (operand_by (seen_some b.entry)) (held_by (seen_some a.entry)) slot) asm.old) }
    ensures too_long { IfErr result
        (λ fault. fault ≡ CodeTooLong
        → IsTooLong (width_of (assign_code rule.0 (operand_by (seen_some a.entry))
        (operand_by (seen_some b.entry)) (held_by (seen_some a.entry)) slot)) asm.old) }
{
    finish_assign(
        asm,
        rule.0,
        operand_by(a)?,
        operand_by(b)?,
        held_by(a),
        slot,
    )?;
    Ok(where_right(to_place, Rule::Assign(rule.0, rule.1).both(a, b)))
}

/// An element of an array.
pub(crate) fn above_index<'a>(
    asm: &mut Asm,
    a: Option<Seen<'a>>,
    b: Option<Seen<'a>>,
    wanted: Wanted,
    slot: u32,
) -> Result<Option<Seen<'a>>, AsmFault>
    requires c { OperandFits (operand_by (seen_some a)) }
    requires d { OperandFits (operand_by (seen_some b)) }
    requires slot { slot + 1 < SLOTS }
    ensures ty { IfOk result
        (λ ty. seen_some ty ≡ both index_rule (seen_some a.entry) (seen_some b.entry)) }
    ensures flat { IfOk result (λ ty. is_flat ty ≡ true) }
    ensures added { OnOk result
        (asm.new ≡ emit_all (index_by wanted (operand_by (seen_some a.entry))
        (operand_by (seen_some b.entry))
        (held_by (both index_rule (seen_some a.entry) (seen_some b.entry))) slot) asm.old) }
    ensures too_long { IfErr result
        (λ fault. fault ≡ CodeTooLong
        → IsTooLong (width_of (index_by wanted (operand_by (seen_some a.entry))
        (operand_by (seen_some b.entry))
        (held_by (both index_rule (seen_some a.entry) (seen_some b.entry))) slot))
        asm.old) }
{
    let ty = index_type(a, b);
    let (c, d) = (operand_by(a)?, operand_by(b)?);
    match wanted {
        Wanted::Value => finish_index(asm, c, d, held_by(ty), slot)?,
        Wanted::Place => finish_index_place(asm, c, d, slot)?,
    }
    Ok(ty)
}

/// `&&` goes past its right operand where the left one is 0, and `||` where it isn't.
fn skips(op: Binary) -> Test
    ensures { result ≡ skips (group op) }
{
    match op.group() {
        Group::And => Test::Eq,
        _ => Test::Ne,
    }
}

/// What is before the right operand of `&&` or `||`: a branch past it.
#[tactic(auto, using(crate::proofs::Emitting::sequences))]
pub(crate) fn begin_logic(asm: &mut Asm, op: Binary, slot: u32) -> Result<Label, AsmFault>
    requires slot { slot < SLOTS }
    ensures label { IfOk result (λ label. label ≡ length asm.old.places) }
    ensures added { OnOk result
        (asm.new ≡ lowered 1 (logic_start op slot (length asm.old.places)) asm.old) }
    ensures too_long { IfErr result
        (λ fault. fault ≡ CodeTooLong
        → IsTooLong (width_of (logic_start op slot (length asm.old.places))) asm.old) }
{
    let label = asm.label()?;
    load_slot(asm, T0, slot)?;
    asm.branch(skips(op), T0, X0, label)?;
    Ok(label)
}

/// What is behind it: whether the last value is not 0.
#[tactic(auto, using(crate::proofs::Emitting::sequences))]
pub(crate) fn end_logic(asm: &mut Asm, label: Label, slot: u32) -> Result<(), AsmFault>
    requires label { label < length asm.old.places }
    requires slot { slot < SLOTS }
    ensures added { OnOk result (asm.new ≡ emit_all (logic_end slot label) asm.old) }
    ensures too_long { IfErr result
        (λ fault. fault ≡ CodeTooLong → IsTooLong (width_of (logic_end slot label)) asm.old) }
{
    asm.place(label);
    add_truth(asm, slot)
}

/// The labels of `?:`: of its third operand, and of what is behind that.
#[derive(Clone, Copy)]
pub(crate) struct Ends {
    pub(crate) third: Label,
    pub(crate) end: Label,
}

/// What is before the second operand of `?:`: a branch to the third one.
#[tactic(auto, using(crate::proofs::Emitting::sequences))]
pub(crate) fn begin_conditional(asm: &mut Asm, slot: u32) -> Result<Ends, AsmFault>
    requires slot { slot < SLOTS }
    ensures third { IfOk result (λ ends. ends.third ≡ length asm.old.places) }
    ensures end { IfOk result (λ ends. ends.end ≡ length asm.old.places + 1) }
    ensures added { OnOk result
        (asm.new ≡ lowered 2 (conditional_start slot (length asm.old.places)) asm.old) }
    ensures too_long { IfErr result
        (λ fault. fault ≡ CodeTooLong
        → IsTooLong (width_of (conditional_start slot (length asm.old.places))) asm.old) }
{
    let label = asm.label()?;
    let end = asm.label()?;
    load_slot(asm, T0, slot)?;
    asm.branch(Test::Eq, T0, X0, label)?;
    Ok(Ends { third: label, end })
}

/// What is between the second operand of `?:` and the third: a jump past that.
#[tactic(auto, using(crate::proofs::Emitting::sequences))]
pub(crate) fn begin_third(asm: &mut Asm, label: Label, end: Label) -> Result<(), AsmFault>
    requires label { label < length asm.old.places }
    requires end { end < length asm.old.places }
    requires next { end ≡ label + 1 }
    ensures added { OnOk result (asm.new ≡ emit_all (conditional_middle label) asm.old) }
    ensures too_long { IfErr result
        (λ fault. fault ≡ CodeTooLong → IsTooLong (width_of (conditional_middle label)) asm.old) }
{
    asm.jump(X0, end)?;
    asm.place(label);
    Ok(())
}

/// What is behind the third operand of `?:`.
#[tactic(auto, using(crate::proofs::Emitting::sequences))]
pub(crate) fn end_conditional(asm: &mut Asm, label: Label, end: Label) -> Result<(), AsmFault>
    requires end { end < length asm.old.places }
    requires next { end ≡ label + 1 }
    ensures added { OnOk result (asm.new ≡ emit_all (conditional_end label) asm.old) }
    ensures too_long { IfErr result
        (λ fault. fault ≡ CodeTooLong → IsTooLong (width_of (conditional_end label)) asm.old) }
{
    asm.place(end);
    add_nothing(asm)
}
