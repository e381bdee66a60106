//! Expressions.

ghost use Rattle.std.specs.Prelude.{◌≡◌, List, true, None, IfOk};
ghost use Rattle.c_tree.specs.Rules.{is_place};
ghost use Rattle.c_tree.specs.Expr as expr;
ghost use Rattle.c_tree.specs.Typing.{all_taken};
ghost use Rattle.c_tree.specs.View.{expr_of, exprs_of};
ghost use Rattle.c_types.specs.Call.{parameters};
ghost use Rattle.c_rules.specs.Seen.{is_flat};
ghost use Rattle.c_tree.specs.FirstOperand.{first_operand};
ghost use Rattle.c_rules.specs.Spine.{below, down};
ghost use Rattle.c_semantics.specs.Names.{Definition, types};
ghost use Rattle.c_resolve.specs.private.Resolved.{IsNodeOf, AreArgumentsOf};
ghost use Rattle.c_resolve.specs.DeclaredNames.{names_in, IsTypeOf};

use crate::callee::{parameters, target, value_type};
use crate::named::Named;
use crate::names::Names;
use crate::node::{Node, NodeKind};
use crate::part::{
    build_assign, build_binary, build_cast, build_conditional, build_constant, build_index,
    build_name, build_step, build_unary,
};
use crate::typed::Typed;
use c_rules::{Along, Base, LIMIT, Seen, descend, follow, operand};
use c_semantics::Home;
use c_tree::{Callee, END_OF_FILE, Expr, ExprKind, Name, OutOfMemory, Place};
use c_types::{Parameters, Passed, is_nought, is_place, where_right};

/// A name.
#[tactic(auto, using(crate::proofs::ResolvedLemmas::typed_name))]
fn resolve_name<'a>(name: &Name, names: &'a Names, at: Place) -> Typed<'a>
    ensures ty { IsTypeOf names.now result.ty (expr.Name name.now at) }
    ensures flat { is_flat result.ty ≡ true }
    ensures means { IsNodeOf names.now result.node (expr.Name name.now at) }
{
    match names.find(name) {
        Some(Named::Variable(ty, home)) => build_name(*home, Some(Seen::of(ty)), at),
        _ => build_name(Home::Nowhere, None, at),
    }
}

/// The arguments of a call, and whether the parameters take them.
#[derive(Drop)]
struct AllArguments {
    nodes: Vec<Node>,
    are_taken: bool,
}

#[cycle(resolving)]
fn resolve_arguments<'a>(
    args: &'a [Expr],
    taken: Parameters<'a>,
    names: &'a Names,
) -> Result<AllArguments, OutOfMemory>
    ensures taken { IfOk result
        (λ r. (definitions : List Definition)
        → r.are_taken ≡ all_taken (types (names_in definitions names.now)) (parameters taken.entry)
        (exprs_of args.now)) }
    ensures means { IfOk result
        (λ r. AreArgumentsOf names.now r.nodes.items (exprs_of args.now)) }
{
    let mut nodes = Vec::new(names.alloc);
    let mut passed = Passed {
        counts: true,
        fits: true,
        typed: true,
    };
    let mut rest = taken;
    for arg in args {
        let value = resolve(arg, names)?;
        passed = rest.pass(passed, is_nought(arg), value.ty);
        rest = rest.others();
        nodes.push(value.node)?;
    }
    Ok(AllArguments {
        nodes,
        are_taken: rest.end(passed).typed,
    })
}

/// A call.
#[cycle(resolving)]
fn resolve_call<'a>(
    callee: &'a Callee,
    args: &'a [Expr],
    names: &'a Names,
    at: Place,
) -> Result<Typed<'a>, OutOfMemory>
    ensures ty { IfOk result
        (λ t. IsTypeOf names.now t.ty (expr.Call callee.now (exprs_of args.now) at)) }
    ensures means { IfOk result
        (λ t. IsNodeOf names.now t.node (expr.Call callee.now (exprs_of args.now) at)) }
{
    let all = resolve_arguments(args, parameters(callee, names), names)?;
    let ty = where_right(all.are_taken, value_type(callee, names));
    let kind = NodeKind::Call(target(callee, names), all.nodes);
    Ok(Typed {
        node: Node { kind, place: at },
        ty,
    })
}

/// An expression without a first operand.
#[cycle(resolving)]
#[tactic(auto, using(c_tree::proofs::ViewLemmas::views))]
fn resolve_leaf<'a>(e: &'a Expr, names: &'a Names) -> Result<Typed<'a>, OutOfMemory>
    requires { first_operand (expr_of e.now) ≡ None }
    ensures ty { IfOk result (λ t. IsTypeOf names.now t.ty (expr_of e.now)) }
    ensures flat { IfOk result (λ t. is_place (expr_of e.now) ≡ true → is_flat t.ty ≡ true) }
    ensures means { IfOk result (λ t. IsNodeOf names.now t.node (expr_of e.now)) }
{
    match &e.kind {
        ExprKind::Name(name) => Ok(resolve_name(name, names, e.place)),
        ExprKind::Number(ty, value) => Ok(build_constant(*value, Seen::of(ty), e.place)),
        ExprKind::Character(code) => Ok(build_constant(*code, Seen::Is(Base::Int), e.place)),
        ExprKind::Eof => Ok(build_constant(END_OF_FILE, Seen::Is(Base::Int), e.place)),
        ExprKind::Call(callee, args) => resolve_call(callee, args.as_slice(), names, e.place),
        _ => unreachable!(),
    }
}

/// An expression over its first operand, which is resolved.
#[cycle(resolving)]
#[tactic(auto, using(c_tree::proofs::ViewLemmas::views))]
fn resolve_above<'a>(
    e: &'a Expr,
    first: Typed<'a>,
    names: &'a Names,
) -> Result<Typed<'a>, OutOfMemory>
    requires ty { IsTypeOf names.now first.ty (below Along.Operands (expr_of e.now)) }
    requires flat { is_place (below Along.Operands (expr_of e.now)) ≡ true
        → is_flat first.ty ≡ true }
    requires means { IsNodeOf names.now first.node (below Along.Operands (expr_of e.now)) }
    ensures ty { IfOk result (λ t. IsTypeOf names.now t.ty (expr_of e.now)) }
    ensures flat { IfOk result (λ t. is_place (expr_of e.now) ≡ true → is_flat t.ty ≡ true) }
    ensures means { IfOk result (λ t. IsNodeOf names.now t.node (expr_of e.now)) }
{
    match &e.kind {
        ExprKind::Name(_) => Ok(first),
        ExprKind::Number(_, _) => Ok(first),
        ExprKind::Character(_) => Ok(first),
        ExprKind::Eof => Ok(first),
        ExprKind::Call(_, _) => Ok(first),
        ExprKind::Unary(op, a) => build_unary(names.alloc, *op, is_place(a), first, e.place),
        ExprKind::Step(how, a) => build_step(names.alloc, *how, is_place(a), first, e.place),
        ExprKind::Cast(to, _) => build_cast(names.alloc, to, first, e.place),
        ExprKind::Binary(op, a, b) => {
            let second = resolve(b, names)?;
            let noughts = (is_nought(a), is_nought(b));
            build_binary(names.alloc, *op, noughts, first, second, e.place)
        }
        ExprKind::Conditional(_, a, b) => {
            let left = resolve(a, names)?;
            let right = resolve(b, names)?;
            let noughts = (is_nought(a), is_nought(b));
            build_conditional(names.alloc, noughts, first, left, right, e.place)
        }
        ExprKind::Assign(how, a, b) => {
            let second = resolve(b, names)?;
            let rule = (*how, is_nought(b));
            build_assign(names.alloc, rule, is_place(a), first, second, e.place)
        }
        ExprKind::Index(_, b) => {
            let second = resolve(b, names)?;
            build_index(names.alloc, first, second, e.place)
        }
    }
}

/// An expression over an operand so many steps further down, which is resolved.
#[cycle(resolving)]
fn rise<'a>(
    e: &'a Expr,
    count: u32,
    end: Typed<'a>,
    names: &'a Names,
) -> Result<Typed<'a>, OutOfMemory>
    requires ty { IsTypeOf names.now end.ty (down Along.Operands count (expr_of e.now)) }
    requires flat { is_place (down Along.Operands count (expr_of e.now)) ≡ true
        → is_flat end.ty ≡ true }
    requires means { IsNodeOf names.now end.node (down Along.Operands count (expr_of e.now)) }
    ensures ty { IfOk result (λ t. IsTypeOf names.now t.ty (expr_of e.now)) }
    ensures flat { IfOk result (λ t. is_place (expr_of e.now) ≡ true → is_flat t.ty ≡ true) }
    ensures means { IfOk result (λ t. IsNodeOf names.now t.node (expr_of e.now)) }
{
    let mut typed = end;
    let mut left = count;
    while 0 < left {
        left -= 1;
        let node = descend(Along::Operands, e, left);
        typed = resolve_above(node, typed, names)?;
    }
    Ok(typed)
}

/// What an expression does, and its type where it has one.
#[cycle(resolving)]
pub fn resolve<'a>(e: &'a Expr, names: &'a Names) -> Result<Typed<'a>, OutOfMemory>
    ensures ty { IfOk result (λ t. IsTypeOf names.now t.ty (expr_of e.now)) }
    ensures flat { IfOk result (λ t. is_place (expr_of e.now) ≡ true → is_flat t.ty ≡ true) }
    ensures means { IfOk result (λ t. IsNodeOf names.now t.node (expr_of e.now)) }
{
    let Some(_first) = operand(Along::Operands, e) else {
        return resolve_leaf(e, names);
    };
    let lowest = follow(Along::Operands, e);
    if lowest.count < LIMIT {
        let end = resolve_leaf(lowest.end, names)?;
        rise(e, lowest.count, end, names)
    } else {
        let end = resolve(lowest.end, names)?;
        rise(e, lowest.count, end, names)
    }
}
