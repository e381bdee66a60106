//! Expressions become code.

ghost use Rattle.std.specs.Prelude.{◌≡◌, ◌≤◌, ◌<◌, ◌+◌, ◌*◌, length, List, true, None, IfOk, IfErr, OnOk};
ghost use Rattle.low_labels.specs.declared.fault.AsmFault.TheVariants.{CodeTooLong};
ghost use Rattle.low_labels.specs.Emission.{Emission, IsTooLong};
ghost use Rattle.low_labels.specs.Operation.{width_of};
ghost use Rattle.c_tree.specs.Expr as expr;
ghost use Rattle.c_tree.specs.FirstOperand.{first_operand};
ghost use Rattle.c_tree.specs.Rules.{is_place, binary_rule, conditional_rule, where_right};
ghost use Rattle.c_tree.specs.Typing.{all_taken, both, is_test, type_at};
ghost use Rattle.c_tree.specs.View.{expr_of, exprs_of};
ghost use Rattle.c_types.specs.Call.{parameters};
ghost use Rattle.c_rules.specs.Seen.{seen_some, is_flat};
ghost use Rattle.c_rules.specs.Spine.{below, down};
ghost use Rattle.c_layout.specs.Slots.{slots, slots_from};
ghost use Rattle.c_semantics.specs.Names.{Definition, types};
ghost use Rattle.c_resolve.specs.DeclaredNames.{IsTypeOf};
ghost use Rattle.low_expr.specs.declared.piece.TheConstants.{SLOTS};
ghost use Rattle.low_expr.specs.declared.wanted.Wanted.TheVariants.{Value};
ghost use Rattle.low_expr.specs.Bound.{nodes};
ghost use Rattle.low_expr.specs.ExprCode.{labels_in, labels_in_all};
ghost use Rattle.low_expr.specs.LabelledNames.{scope_in, HasLabels};
ghost use Rattle.low_expr.specs.Lowering.{lowered, IsLowered, IsReadyIn};
ghost use Rattle.low_expr.specs.private.Wanting.{wanted_down, arguments_in, logic_in, conditional_in, IsLoweredAs, IsRefusedAs, IsLoweredAbove, IsRefusedAbove, IsReadyAs, AreReadyIn};

use crate::above::{
    above_assign, above_binary, above_cast, above_index, above_step, above_unary,
    begin_conditional, begin_logic, begin_third, end_conditional, end_logic,
};
use crate::call::add_call;
use crate::names::Names;
use crate::piece::SLOTS;
use crate::primary::{lower_constant, lower_name};
use crate::wanted::{Wanted, reach};
use c_resolve::{parameters, value_type};
use c_rules::{Along, Base, LIMIT, Rule, Seen, follow, operand};
use c_tree::{Binary, Callee, END_OF_FILE, Expr, ExprKind, Place};
use c_types::{Parameters, Passed, is_nought, is_place, is_test, where_right};
use low_labels::{Asm, AsmFault};

/// The arguments of a call, each into its slot, and whether the parameters take them.
#[cycle(lowering)]
fn lower_arguments<'a>(
    asm: &mut Asm,
    args: &'a [Expr],
    taken: Parameters<'a>,
    names: &'a Names,
    slot: u32,
) -> Result<bool, AsmFault>
    requires ready { AreReadyIn names.now (exprs_of args.now) }
    requires labels { HasLabels names.now (length asm.old.places) }
    requires slots { slot + slots_from 0 (exprs_of args.now) ≤ SLOTS }
    ensures taken { IfOk result (λ are_taken. (definitions : List Definition)
        → are_taken ≡ all_taken (types (scope_in definitions names.now)) (parameters taken.entry)
        (exprs_of args.now)) }
    ensures lowered { OnOk result ((definitions : List Definition)
        → asm.new ≡ lowered (labels_in_all (exprs_of args.now))
        (arguments_in names.now (exprs_of args.now) slot asm.old definitions) asm.old) }
    ensures too_long { IfErr result (λ fault. fault ≡ CodeTooLong → (definitions : List Definition)
        → IsTooLong
        (width_of (arguments_in names.now (exprs_of args.now) slot asm.old definitions)) asm.old) }
{
    let mut passed = Passed {
        counts: true,
        fits: true,
        typed: true,
    };
    let mut rest = taken;
    let mut into = slot;
    for arg in args {
        let ty = lower_at(asm, arg, Wanted::Value, names, into)?;
        passed = rest.pass(passed, is_nought(arg), ty);
        rest = rest.others();
        into += 1;
    }
    Ok(rest.end(passed).typed)
}

/// A call.
#[cycle(lowering)]
fn lower_call<'a>(
    asm: &mut Asm,
    callee: &'a Callee,
    args: &'a [Expr],
    names: &'a Names,
    slot: u32,
    at: Place,
) -> Result<Option<Seen<'a>>, AsmFault>
    requires ready { IsReadyAs names.now Value (expr.Call callee.now (exprs_of args.now) at) }
    requires labels { HasLabels names.now (length asm.old.places) }
    requires slots { slot + slots (expr.Call callee.now (exprs_of args.now) at) ≤ SLOTS }
    ensures ty { IfOk result
        (λ ty. IsTypeOf names.now.known ty (expr.Call callee.now (exprs_of args.now) at)) }
    ensures lowered { OnOk result
        (IsLoweredAs names.now Value (expr.Call callee.now (exprs_of args.now) at) slot asm.old
        asm.new) }
    ensures too_long { IfErr result (λ fault. fault ≡ CodeTooLong
        → IsRefusedAs names.now Value (expr.Call callee.now (exprs_of args.now) at) slot asm.old) }
{
    let are_taken = lower_arguments(asm, args, parameters(callee, &names.known), names, slot)?;
    add_call(asm, callee, args.len() as u32, names, slot)?;
    Ok(where_right(are_taken, value_type(callee, &names.known)))
}

/// An expression without a first operand.
#[cycle(lowering)]
#[tactic(auto, using(c_tree::proofs::ViewLemmas::views))]
fn lower_leaf<'a>(
    asm: &mut Asm,
    e: &'a Expr,
    wanted: Wanted,
    names: &'a Names,
    slot: u32,
) -> Result<Option<Seen<'a>>, AsmFault>
    requires leaf { first_operand (expr_of e.now) ≡ None }
    requires ready { IsReadyAs names.now wanted (expr_of e.now) }
    requires labels { HasLabels names.now (length asm.old.places) }
    requires slots { slot + slots (expr_of e.now) ≤ SLOTS }
    ensures ty { IfOk result (λ ty. IsTypeOf names.now.known ty (expr_of e.now)) }
    ensures flat { IfOk result (λ ty. is_place (expr_of e.now) ≡ true → is_flat ty ≡ true) }
    ensures lowered { OnOk result
        (IsLoweredAs names.now wanted (expr_of e.now) slot asm.old asm.new) }
    ensures too_long { IfErr result (λ fault. fault ≡ CodeTooLong
        → IsRefusedAs names.now wanted (expr_of e.now) slot asm.old) }
{
    match &e.kind {
        ExprKind::Name(name) => lower_name(asm, name, wanted, names, slot, e.place),
        ExprKind::Number(ty, value) => lower_constant(asm, *value, Seen::of(ty), slot),
        ExprKind::Character(code) => lower_constant(asm, *code, Seen::Is(Base::Int), slot),
        ExprKind::Eof => lower_constant(asm, END_OF_FILE, Seen::Is(Base::Int), slot),
        ExprKind::Call(callee, args) => {
            lower_call(asm, callee, args.as_slice(), names, slot, e.place)
        }
        _ => unreachable!(),
    }
}

/// `&&` or `||` above its left operand, and which of its operands are the literal 0.
#[cycle(lowering)]
#[tactic(auto, using(crate::proofs::AboveOperands::slots_positive))]
fn lower_logic<'a>(
    asm: &mut Asm,
    op: Binary,
    noughts: (bool, bool),
    first: Option<Seen<'a>>,
    b: &'a Expr,
    names: &'a Names,
    slot: u32,
) -> Result<Option<Seen<'a>>, AsmFault>
    requires ready { IsReadyAs names.now Value (expr_of b.now) }
    requires labels { HasLabels names.now (length asm.old.places) }
    requires slots { slot + slots (expr_of b.now) ≤ SLOTS }
    ensures ty { IfOk result (λ ty. (definitions : List Definition)
        → seen_some ty ≡ both (binary_rule op noughts.0 noughts.1) (seen_some first.entry)
        (type_at (types (scope_in definitions names.now)) (expr_of b.now))) }
    ensures lowered { OnOk result ((definitions : List Definition)
        → asm.new ≡ lowered (1 + labels_in (expr_of b.now))
        (logic_in names.now op (expr_of b.now) slot asm.old definitions) asm.old) }
    ensures too_long { IfErr result (λ fault. fault ≡ CodeTooLong → (definitions : List Definition)
        → IsTooLong
        (width_of (logic_in names.now op (expr_of b.now) slot asm.old definitions)) asm.old) }
{
    let end = begin_logic(asm, op, slot)?;
    let second = lower_at(asm, b, Wanted::Value, names, slot)?;
    end_logic(asm, end, slot)?;
    Ok(Rule::Binary(op, noughts.0, noughts.1).both(first, second))
}

/// `?:` above its first operand, and which of its others are the literal 0.
#[cycle(lowering)]
#[tactic(auto, using(crate::proofs::AboveOperands::slots_positive))]
fn lower_conditional<'a>(
    asm: &mut Asm,
    noughts: (bool, bool),
    first: Option<Seen<'a>>,
    a: &'a Expr,
    b: &'a Expr,
    names: &'a Names,
    slot: u32,
) -> Result<Option<Seen<'a>>, AsmFault>
    requires first { IsReadyAs names.now Value (expr_of a.now) }
    requires second { IsReadyAs names.now Value (expr_of b.now) }
    requires labels { HasLabels names.now (length asm.old.places) }
    requires slots { slot + slots (expr_of a.now) ≤ SLOTS }
    requires other { slot + slots (expr_of b.now) ≤ SLOTS }
    ensures ty { IfOk result (λ ty. (definitions : List Definition)
        → let scope = types (scope_in definitions names.now) in
        seen_some ty ≡ where_right (is_test (seen_some first.entry))
        (both (conditional_rule noughts.0 noughts.1) (type_at scope (expr_of a.now))
        (type_at scope (expr_of b.now)))) }
    ensures lowered { OnOk result ((definitions : List Definition)
        → asm.new ≡ lowered (2 + labels_in (expr_of a.now) + labels_in (expr_of b.now))
        (conditional_in names.now (expr_of a.now) (expr_of b.now) slot asm.old definitions)
        asm.old) }
    ensures too_long { IfErr result (λ fault. fault ≡ CodeTooLong → (definitions : List Definition)
        → IsTooLong (width_of
        (conditional_in names.now (expr_of a.now) (expr_of b.now) slot asm.old definitions))
        asm.old) }
{
    let ends = begin_conditional(asm, slot)?;
    let left = lower_at(asm, a, Wanted::Value, names, slot)?;
    begin_third(asm, ends.third, ends.end)?;
    let right = lower_at(asm, b, Wanted::Value, names, slot)?;
    end_conditional(asm, ends.third, ends.end)?;
    let ty = Rule::Conditional(noughts.0, noughts.1).both(left, right);
    Ok(where_right(is_test(first), ty))
}

/// An expression above its first operand, whose value or address is in the slot.
#[cycle(lowering)]
#[tactic(auto, using(c_tree::proofs::ViewLemmas::views, crate::proofs::AboveOperands::slots_positive))]
fn lower_above<'a>(
    asm: &mut Asm,
    e: &'a Expr,
    first: Option<Seen<'a>>,
    wanted: Wanted,
    names: &'a Names,
    slot: u32,
) -> Result<Option<Seen<'a>>, AsmFault>
    requires ready { IsReadyAs names.now wanted (expr_of e.now) }
    requires labels { HasLabels names.now (length asm.old.places) }
    requires slots { slot + slots (expr_of e.now) ≤ SLOTS }
    requires ty { IsTypeOf names.now.known first (below Along.Operands (expr_of e.now)) }
    requires flat { is_place (below Along.Operands (expr_of e.now)) ≡ true
        → is_flat first ≡ true }
    ensures ty { IfOk result (λ ty. IsTypeOf names.now.known ty (expr_of e.now)) }
    ensures flat { IfOk result (λ ty. is_place (expr_of e.now) ≡ true → is_flat ty ≡ true) }
    ensures lowered { OnOk result
        (IsLoweredAbove names.now wanted (expr_of e.now) slot asm.old asm.new) }
    ensures too_long { IfErr result (λ fault. fault ≡ CodeTooLong
        → IsRefusedAbove names.now wanted (expr_of e.now) slot asm.old) }
{
    match &e.kind {
        ExprKind::Name(_) => Ok(first),
        ExprKind::Number(_, _) => Ok(first),
        ExprKind::Character(_) => Ok(first),
        ExprKind::Eof => Ok(first),
        ExprKind::Call(_, _) => Ok(first),
        ExprKind::Unary(op, a) => above_unary(asm, *op, is_place(a), first, wanted, slot),
        ExprKind::Step(how, a) => above_step(asm, *how, is_place(a), first, slot),
        ExprKind::Cast(to, _) => above_cast(asm, to, first, slot),
        ExprKind::Binary(op, a, b) => {
            let noughts = (is_nought(a), is_nought(b));
            if op.group().is_logic() {
                lower_logic(asm, *op, noughts, first, b, names, slot)
            } else {
                let second = lower_at(asm, b, Wanted::Value, names, slot + 1)?;
                above_binary(asm, *op, noughts, first, second, slot)
            }
        }
        ExprKind::Conditional(_, a, b) => {
            let noughts = (is_nought(a), is_nought(b));
            lower_conditional(asm, noughts, first, a, b, names, slot)
        }
        ExprKind::Assign(how, a, b) => {
            let second = lower_at(asm, b, Wanted::Value, names, slot + 1)?;
            let rule = (*how, is_nought(b));
            above_assign(asm, rule, is_place(a), first, second, slot)
        }
        ExprKind::Index(_, b) => {
            let second = lower_at(asm, b, Wanted::Value, names, slot + 1)?;
            above_index(asm, first, second, wanted, slot)
        }
    }
}

/// An expression above an operand so many steps further down, whose value or address is in the
/// slot.
#[cycle(lowering)]
fn rise<'a>(
    asm: &mut Asm,
    e: &'a Expr,
    count: u32,
    end: Option<Seen<'a>>,
    wanted: Wanted,
    names: &'a Names,
    slot: u32,
) -> Result<Option<Seen<'a>>, AsmFault>
    requires ready { IsReadyAs names.now wanted (expr_of e.now) }
    requires labels { HasLabels names.now (length asm.old.places) }
    requires slots { slot + slots (expr_of e.now) ≤ SLOTS }
    requires ty { IsTypeOf names.now.known end (down Along.Operands count (expr_of e.now)) }
    requires flat { is_place (down Along.Operands count (expr_of e.now)) ≡ true
        → is_flat end ≡ true }
    ensures ty { IfOk result (λ ty. IsTypeOf names.now.known ty (expr_of e.now)) }
    ensures flat { IfOk result (λ ty. is_place (expr_of e.now) ≡ true → is_flat ty ≡ true) }
    ensures lowered { OnOk result ((start : Emission)
        → IsLoweredAs names.now (wanted_down wanted count (expr_of e.now))
        (down Along.Operands count (expr_of e.now)) slot start asm.old
        → IsLoweredAs names.now wanted (expr_of e.now) slot start asm.new) }
    ensures too_long { IfErr result (λ fault. fault ≡ CodeTooLong → (start : Emission)
        → IsLoweredAs names.now (wanted_down wanted count (expr_of e.now))
        (down Along.Operands count (expr_of e.now)) slot start asm.old
        → IsRefusedAs names.now wanted (expr_of e.now) slot start) }
{
    let mut ty = end;
    let mut left = count;
    while 0 < left {
        left -= 1;
        let node = reach(e, wanted, left);
        ty = lower_above(asm, node.expr, ty, node.wanted, names, slot)?;
    }
    Ok(ty)
}

/// An expression, whose value or address comes into the slot, and its type where it has one.
#[cycle(lowering)]
fn lower_at<'a>(
    asm: &mut Asm,
    e: &'a Expr,
    wanted: Wanted,
    names: &'a Names,
    slot: u32,
) -> Result<Option<Seen<'a>>, AsmFault>
    requires ready { IsReadyAs names.now wanted (expr_of e.now) }
    requires labels { HasLabels names.now (length asm.old.places) }
    requires slots { slot + slots (expr_of e.now) ≤ SLOTS }
    ensures ty { IfOk result (λ ty. IsTypeOf names.now.known ty (expr_of e.now)) }
    ensures flat { IfOk result (λ ty. is_place (expr_of e.now) ≡ true → is_flat ty ≡ true) }
    ensures lowered { OnOk result
        (IsLoweredAs names.now wanted (expr_of e.now) slot asm.old asm.new) }
    ensures too_long { IfErr result (λ fault. fault ≡ CodeTooLong
        → IsRefusedAs names.now wanted (expr_of e.now) slot asm.old) }
{
    let Some(_first) = operand(Along::Operands, e) else {
        return lower_leaf(asm, e, wanted, names, slot);
    };
    let lowest = follow(Along::Operands, e);
    let below = reach(e, wanted, lowest.count).wanted;
    let end = if lowest.count < LIMIT {
        lower_leaf(asm, lowest.end, below, names, slot)?
    } else {
        lower_at(asm, lowest.end, below, names, slot)?
    };
    rise(asm, e, lowest.count, end, wanted, names, slot)
}

/// An expression, whose value comes into the slot.
pub fn lower_expr(asm: &mut Asm, expr: &Expr, names: &Names, slot: u32) -> Result<(), AsmFault>
    requires ready { IsReadyIn names.now (expr_of expr.now) }
    requires labels { HasLabels names.now (length asm.old.places) }
    requires slots { slot + slots (expr_of expr.now) ≤ SLOTS }
    ensures lowered { OnOk result (IsLowered names.now (expr_of expr.now) slot asm.old asm.new) }
    ensures too_long { IfErr result (λ fault. fault ≡ CodeTooLong
        → IsTooLong (32 * nodes (expr_of expr.now)) asm.old) }
{
    lower_at(asm, expr, Wanted::Value, names, slot)?;
    Ok(())
}
