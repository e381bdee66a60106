//! Nodes over operands that are resolved.

ghost use Rattle.std.specs.Prelude.{◌≡◌, true, Some, IfOk};
ghost use Rattle.c_tree.specs.declared.operator.Binary.TheVariants.{Plus};
ghost use Rattle.c_tree.specs.Rules.{is_at, where_right, binary_rule, conditional_rule, assign_rule, index_rule, step_rule, cast_rule};
ghost use Rattle.c_tree.specs.Typing.{one, both, unary_type, is_test};
ghost use Rattle.c_tree.specs.View.{ty_of};
ghost use Rattle.c_rules.specs.Seen.{seen_some, is_flat};
ghost use Rattle.c_semantics.specs.Eval.{binary_run, unary_run, stepped, assign_run, conditional_run, strict};
ghost use Rattle.c_semantics.specs.Names.{held, held_by, operand_by};
ghost use Rattle.c_resolve.specs.Nodes.{runs, placed, valued, constant, name_run, name_address, pointer, cast_run};
ghost use Rattle.c_resolve.specs.private.Resolved.{loaded, NodeDoes};

use crate::kinds::{held_by, held_of, operand_by};
use crate::node::{Node, NodeKind};
use crate::typed::Typed;
use c_rules::{PartRule, Rule, Seen, index_result};
use c_semantics::Home;
use c_tree::{Binary, CType, OutOfMemory, Place, Step, Unary};
use c_types::{address_of, is_test, where_right};
use std::alloc::Global;

/// A value that the text gives.
pub(super) fn build_constant<'a>(value: u32, ty: Seen<'a>, at: Place) -> Typed<'a>
    ensures ty { seen_some result.ty ≡ seen_some (Some ty.entry) }
    ensures means { NodeDoes result.node (λ context. valued (constant value) at) }
{
    let kind = NodeKind::Constant(value);
    Typed {
        node: Node { kind, place: at },
        ty: Some(ty),
    }
}

/// A name, by where it stands.
#[tactic(auto, using(crate::proofs::ActionViews::views))]
pub(super) fn build_name<'a>(home: Home, ty: Option<Seen<'a>>, at: Place) -> Typed<'a>
    ensures ty { seen_some result.ty ≡ seen_some ty.entry }
    ensures flat { is_flat result.ty ≡ is_flat ty.entry }
    ensures means { NodeDoes result.node (λ context. placed (name_run home (held_by (seen_some ty.entry)) at) (name_address home) at) }
{
    let kind = NodeKind::Name(home, held_by(ty));
    let node = Node { kind, place: at };
    Typed { node, ty }
}

/// The type of an operator before its operand.
pub fn unary_type<'a>(op: Unary, of_place: bool, ty: Option<Seen<'a>>) -> Option<Seen<'a>>
    requires { of_place ≡ true → is_flat ty ≡ true }
    ensures ty { seen_some result ≡ unary_type op of_place (seen_some ty.entry) }
    ensures flat { is_at op ≡ true → is_flat result ≡ true }
{
    match op {
        Unary::Address => address_of(of_place, ty),
        Unary::Plus => PartRule::Unary(Unary::Plus).one(ty),
        Unary::Minus => PartRule::Unary(Unary::Minus).one(ty),
        Unary::Not => PartRule::Unary(Unary::Not).one(ty),
        Unary::Flip => PartRule::Unary(Unary::Flip).one(ty),
        Unary::At => PartRule::Unary(Unary::At).one(ty),
    }
}

/// An operator before its operand.
#[tactic(auto, using(crate::proofs::ActionViews::views))]
pub(super) fn build_unary<'a>(
    alloc: Global,
    op: Unary,
    of_place: bool,
    a: Typed<'a>,
    at: Place,
) -> Result<Typed<'a>, OutOfMemory>
    requires { of_place ≡ true → is_flat a.ty ≡ true }
    ensures ty { IfOk result (λ t. seen_some t.ty ≡ unary_type op of_place (seen_some a.entry.ty)) }
    ensures flat { IfOk result (λ t. is_at op ≡ true → is_flat t.ty ≡ true) }
    ensures means { IfOk result
        (λ t. NodeDoes t.node (λ context. let r = runs context a.entry.node in
        placed (unary_run op (operand_by (seen_some a.entry.ty))
        (held_by (seen_some t.ty)) at r.value r.address) (pointer r.value) at)) }
{
    let ty = unary_type(op, of_place, a.ty);
    let kind = NodeKind::Unary(op, operand_by(a.ty)?, held_by(ty), Box::new(alloc, a.node)?);
    let node = Node { kind, place: at };
    Ok(Typed { node, ty })
}

/// `++` or `--`.
#[tactic(auto, using(crate::proofs::ActionViews::views))]
pub(super) fn build_step<'a>(
    alloc: Global,
    how: Step,
    of_place: bool,
    a: Typed<'a>,
    at: Place,
) -> Result<Typed<'a>, OutOfMemory>
    ensures ty { IfOk result
        (λ t. seen_some t.ty ≡ where_right of_place (one step_rule (seen_some a.entry.ty))) }
    ensures means { IfOk result
        (λ t. NodeDoes t.node (λ context. let r = runs context a.entry.node in
        valued (stepped how (operand_by (seen_some a.entry.ty))
        (held_by (seen_some a.entry.ty)) r.place at r.address) at)) }
{
    let ty = where_right(of_place, PartRule::Step.one(a.ty));
    let kind = NodeKind::Step(
        how,
        operand_by(a.ty)?,
        held_by(a.ty),
        Box::new(alloc, a.node)?,
    );
    let node = Node { kind, place: at };
    Ok(Typed { node, ty })
}

/// A cast.
#[tactic(auto, using(crate::proofs::ActionViews::views))]
pub(super) fn build_cast<'a>(
    alloc: Global,
    to: &'a CType,
    a: Typed<'a>,
    at: Place,
) -> Result<Typed<'a>, OutOfMemory>
    ensures ty { IfOk result
        (λ t. seen_some t.ty ≡ one (cast_rule (ty_of to.now)) (seen_some a.entry.ty)) }
    ensures means { IfOk result
        (λ t. NodeDoes t.node (λ context. valued (cast_run (held (ty_of to.now))
        (runs context a.entry.node).value) at)) }
{
    let ty = PartRule::Cast(to).one(a.ty);
    let kind = NodeKind::Cast(held_of(to), Box::new(alloc, a.node)?);
    let node = Node { kind, place: at };
    Ok(Typed { node, ty })
}

/// An operator between two operands, and which of them are the literal 0.
#[tactic(auto, using(crate::proofs::ActionViews::views))]
pub(super) fn build_binary<'a>(
    alloc: Global,
    op: Binary,
    noughts: (bool, bool),
    a: Typed<'a>,
    b: Typed<'a>,
    at: Place,
) -> Result<Typed<'a>, OutOfMemory>
    ensures ty { IfOk result
        (λ t. seen_some t.ty ≡ both (binary_rule op noughts.0 noughts.1) (seen_some a.entry.ty)
        (seen_some b.entry.ty)) }
    ensures means { IfOk result
        (λ t. NodeDoes t.node (λ context. valued (binary_run op (operand_by (seen_some a.entry.ty))
        (operand_by (seen_some b.entry.ty)) at
        (runs context a.entry.node).value
        (runs context b.entry.node).value) at)) }
{
    let ty = Rule::Binary(op, noughts.0, noughts.1).both(a.ty, b.ty);
    let kind = NodeKind::Binary(
        op,
        operand_by(a.ty)?,
        operand_by(b.ty)?,
        Box::new(alloc, a.node)?,
        Box::new(alloc, b.node)?,
    );
    let node = Node { kind, place: at };
    Ok(Typed { node, ty })
}

/// `?:`, and which of its last two operands are the literal 0.
#[tactic(auto, using(crate::proofs::ActionViews::views))]
pub(super) fn build_conditional<'a>(
    alloc: Global,
    noughts: (bool, bool),
    c: Typed<'a>,
    a: Typed<'a>,
    b: Typed<'a>,
    at: Place,
) -> Result<Typed<'a>, OutOfMemory>
    ensures ty { IfOk result
        (λ t. seen_some t.ty ≡ where_right (is_test (seen_some c.entry.ty))
        (both (conditional_rule noughts.0 noughts.1) (seen_some a.entry.ty)
        (seen_some b.entry.ty))) }
    ensures means { IfOk result
        (λ t. NodeDoes t.node (λ context. valued (conditional_run (runs context c.entry.node).value
        (runs context a.entry.node).value
        (runs context b.entry.node).value) at)) }
{
    let value = Rule::Conditional(noughts.0, noughts.1).both(a.ty, b.ty);
    let ty = where_right(is_test(c.ty), value);
    let kind = NodeKind::Conditional(
        Box::new(alloc, c.node)?,
        Box::new(alloc, a.node)?,
        Box::new(alloc, b.node)?,
    );
    let node = Node { kind, place: at };
    Ok(Typed { node, ty })
}

/// An assignment, and whether its right side is the literal 0.
#[tactic(auto, using(crate::proofs::ActionViews::views))]
pub(super) fn build_assign<'a>(
    alloc: Global,
    rule: (Option<Binary>, bool),
    to_place: bool,
    a: Typed<'a>,
    b: Typed<'a>,
    at: Place,
) -> Result<Typed<'a>, OutOfMemory>
    ensures ty { IfOk result
        (λ t. seen_some t.ty ≡ where_right to_place
        (both (assign_rule rule.0 rule.1) (seen_some a.entry.ty) (seen_some b.entry.ty))) }
    ensures means { IfOk result
        (λ t. NodeDoes t.node (λ context. let r = runs context a.entry.node in
        valued (assign_run rule.0 (operand_by (seen_some a.entry.ty))
        (operand_by (seen_some b.entry.ty))
        (held_by (seen_some a.entry.ty)) r.place at r.address
        (runs context b.entry.node).value) at)) }
{
    let value = Rule::Assign(rule.0, rule.1).both(a.ty, b.ty);
    let ty = where_right(to_place, value);
    let kind = NodeKind::Assign(
        rule.0,
        operand_by(a.ty)?,
        operand_by(b.ty)?,
        held_by(a.ty),
        Box::new(alloc, a.node)?,
        Box::new(alloc, b.node)?,
    );
    let node = Node { kind, place: at };
    Ok(Typed { node, ty })
}

/// The type of an element of an array.
pub fn index_type<'a>(a: Option<Seen<'a>>, b: Option<Seen<'a>>) -> Option<Seen<'a>>
    ensures ty { seen_some result ≡ both index_rule (seen_some a.entry) (seen_some b.entry) }
    ensures flat { is_flat result ≡ true }
{
    match (a, b) {
        (Some(a), Some(b)) => index_result(a, b),
        _ => None,
    }
}

/// An element of an array.
#[tactic(auto, using(crate::proofs::ActionViews::views))]
pub(super) fn build_index<'a>(
    alloc: Global,
    a: Typed<'a>,
    b: Typed<'a>,
    at: Place,
) -> Result<Typed<'a>, OutOfMemory>
    ensures ty { IfOk result
        (λ t. seen_some t.ty ≡ both index_rule (seen_some a.entry.ty) (seen_some b.entry.ty)) }
    ensures flat { IfOk result (λ t. is_flat t.ty ≡ true) }
    ensures means { IfOk result
        (λ t. NodeDoes t.node (λ context. let sum = strict Plus (operand_by (seen_some a.entry.ty))
        (operand_by (seen_some b.entry.ty)) at
        (runs context a.entry.node).value
        (runs context b.entry.node).value in
        placed (loaded (held_by (seen_some t.ty)) at sum) sum at)) }
{
    let ty = index_type(a.ty, b.ty);
    let kind = NodeKind::Index(
        operand_by(a.ty)?,
        operand_by(b.ty)?,
        held_by(ty),
        Box::new(alloc, a.node)?,
        Box::new(alloc, b.node)?,
    );
    let node = Node { kind, place: at };
    Ok(Typed { node, ty })
}
