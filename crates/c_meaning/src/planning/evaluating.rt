//! Expressions that are to be evaluated.

ghost use Rattle.std.specs.Prelude.{OnOk};
ghost use Rattle.c_resolve.specs.Actions.{value_run, unused_run};
ghost use Rattle.c_semantics.specs.Eval.{binary_run, unary_run, strict, logic, stepped, assign_run, conditional_run};
ghost use Rattle.c_resolve.specs.Nodes.{name_run, pointer, ignored, cast_run, index_run, runs, used, call_of};
ghost use Rattle.c_meaning.specs.private.Turned.{Plans, PlansNothing};

use crate::machine::act::{Assignment, BinaryAct, Lvalue, Stepping};
use crate::pending::{Edge, Task, Wanted, Work};
use crate::planning::plan;
use c_resolve::{Node, NodeKind, Target};
use c_semantics::{Held, Home, Operand};
use c_tree::{Binary, OutOfMemory, Place, Step, Unary};

/// An operator before its operand.
#[tactic(auto, using(c_semantics::proofs::RunLemmas::assoc))]
fn plan_unary<'a>(
    work: &mut Vec<Work<'a>>,
    op: Unary,
    c: Operand,
    held: Held,
    a: &'a Node,
    at: Place,
) -> Result<(), OutOfMemory>
    ensures { OnOk result (Plans
        (λ context. unary_run op c held at
        (runs context a.now).value
        (runs context a.now).address) work.old.items work.new.items) }
{
    match op {
        Unary::At => plan(
            work,
            &[
                Task::Eval(Wanted::Value, a),
                Task::Count,
                Task::Load(held, at),
            ],
        ),
        Unary::Address => plan(work, &[Task::Eval(Wanted::Address, a), Task::Count]),
        Unary::Plus => plan(
            work,
            &[
                Task::Eval(Wanted::Value, a),
                Task::Unary(Unary::Plus, c, at),
            ],
        ),
        Unary::Minus => plan(
            work,
            &[
                Task::Eval(Wanted::Value, a),
                Task::Unary(Unary::Minus, c, at),
            ],
        ),
        Unary::Not => plan(
            work,
            &[Task::Eval(Wanted::Value, a), Task::Unary(Unary::Not, c, at)],
        ),
        Unary::Flip => plan(
            work,
            &[
                Task::Eval(Wanted::Value, a),
                Task::Unary(Unary::Flip, c, at),
            ],
        ),
    }
}

/// An operator that evaluates both operands.
fn plan_strict<'a>(
    work: &mut Vec<Work<'a>>,
    act: BinaryAct,
    a: &'a Node,
    b: &'a Node,
) -> Result<(), OutOfMemory>
    ensures { OnOk result (Plans
        (λ context. strict act.op act.left act.right act.at (value_run context a.now)
        (value_run context b.now)) work.old.items work.new.items) }
{
    plan(
        work,
        &[
            Task::Eval(Wanted::Value, a),
            Task::Eval(Wanted::Value, b),
            Task::Binary(act),
        ],
    )?;
    Ok(())
}

/// `&&` or `||`.
#[tactic(auto, using(c_semantics::proofs::RunLemmas::assoc_two))]
fn plan_logic<'a>(
    work: &mut Vec<Work<'a>>,
    op: Binary,
    a: &'a Node,
    b: &'a Node,
) -> Result<(), OutOfMemory>
    ensures { OnOk result (Plans
        (λ context. logic op (value_run context a.now)
        (value_run context b.now)) work.old.items work.new.items) }
{
    plan(
        work,
        &[
            Task::Eval(Wanted::Value, a),
            Task::Logic(op, b),
            Task::Truth,
        ],
    )
}

#[tactic(auto, using(c_semantics::proofs::RunLemmas::assoc))]
fn plan_step<'a>(
    work: &mut Vec<Work<'a>>,
    how: Step,
    operand: Operand,
    held: Held,
    a: &'a Node,
    at: Place,
) -> Result<(), OutOfMemory>
    ensures { OnOk result (Plans
        (λ context. stepped how operand held (runs context a.now).place at
        (runs context a.now).address) work.old.items work.new.items) }
{
    let place = a.place;
    let of = Lvalue { held, place };
    let stepping = Stepping {
        how,
        operand,
        of,
        at,
    };
    plan(
        work,
        &[Task::Eval(Wanted::Address, a), Task::Step(stepping)],
    )?;
    Ok(())
}

#[tactic(auto, using(c_semantics::proofs::RunLemmas::assoc))]
fn plan_cast<'a>(work: &mut Vec<Work<'a>>, held: Held, a: &'a Node) -> Result<(), OutOfMemory>
    ensures { OnOk result (Plans
        (λ context. cast_run held (value_run context a.now))
        work.old.items work.new.items) }
{
    plan(work, &[Task::Eval(Wanted::Value, a), Task::Cast(held)])
}

#[tactic(auto, using(c_semantics::proofs::RunLemmas::assoc_two))]
fn plan_conditional<'a>(
    work: &mut Vec<Work<'a>>,
    c: &'a Node,
    a: &'a Node,
    b: &'a Node,
) -> Result<(), OutOfMemory>
    ensures { OnOk result (Plans
        (λ context. conditional_run (value_run context c.now)
        (value_run context a.now) (value_run context b.now))
        work.old.items work.new.items) }
{
    plan(
        work,
        &[
            Task::Eval(Wanted::Value, c),
            Task::Conditional(a, b),
            Task::Count,
        ],
    )
}

fn plan_assign<'a>(
    work: &mut Vec<Work<'a>>,
    how: Option<Binary>,
    left: Operand,
    right: Operand,
    held: Held,
    a: &'a Node,
    b: &'a Node,
    at: Place,
) -> Result<(), OutOfMemory>
    ensures { OnOk result (Plans
        (λ context. assign_run how left right held (runs context a.now).place at
        (runs context a.now).address (value_run context b.now)) work.old.items work.new.items) }
{
    let to = Lvalue {
        held,
        place: a.place,
    };
    let assignment = Assignment {
        how,
        left,
        right,
        to,
        at,
    };
    let first = Task::Eval(Wanted::Address, a);
    let second = Task::Eval(Wanted::Value, b);
    plan(work, &[first, second, Task::Assign(assignment)])?;
    Ok(())
}

/// What an element holds.
fn plan_index<'a>(
    work: &mut Vec<Work<'a>>,
    left: Operand,
    right: Operand,
    held: Held,
    a: &'a Node,
    b: &'a Node,
    at: Place,
) -> Result<(), OutOfMemory>
    ensures { OnOk result (Plans
        (λ context. index_run left right held at (value_run context a.now)
        (value_run context b.now)) work.old.items work.new.items) }
{
    let op = Binary::Plus;
    let sum = BinaryAct {
        op,
        left,
        right,
        at,
    };
    plan(
        work,
        &[
            Task::Eval(Wanted::Value, a),
            Task::Eval(Wanted::Value, b),
            Task::Binary(sum),
            Task::Load(held, at),
        ],
    )?;
    Ok(())
}

/// An operator between two operands.
fn plan_binary<'a>(
    work: &mut Vec<Work<'a>>,
    act: BinaryAct,
    a: &'a Node,
    b: &'a Node,
) -> Result<(), OutOfMemory>
    ensures { OnOk result (Plans
        (λ context. binary_run act.op act.left act.right act.at (value_run context a.now)
        (value_run context b.now)) work.old.items work.new.items) }
{
    if act.op.group().is_logic() {
        plan_logic(work, act.op, a, b)
    } else {
        plan_strict(work, act, a, b)
    }
}

/// What a variable holds.
#[tactic(auto, using(c_semantics::proofs::RunLemmas::assoc))]
fn plan_name(work: &mut Vec<Work<'_>>, home: Home, held: Held, at: Place) -> Result<(), OutOfMemory>
    ensures { OnOk result (Plans
        (λ context. name_run home held at) work.old.items work.new.items) }
{
    plan(work, &[Task::Name(home), Task::Load(held, at)])
}

/// A call whose value is used.
fn plan_used_call<'a>(
    work: &mut Vec<Work<'a>>,
    target: Target,
    all: &'a [Node],
    at: Place,
) -> Result<(), OutOfMemory>
    ensures { OnOk result (Plans
        (λ context. used (call_of context target all.now) at)
        work.old.items work.new.items) }
{
    work.push(Work::Edge(Edge::Use(at)))?;
    plan(work, &[Task::Values(all), Task::Call(target, all.len())])?;
    Ok(())
}

/// What is to be done for the value of an expression with operands.
#[tactic(auto, using(c_resolve::proofs::ActionViews::views))]
pub(crate) fn plan_value<'a>(work: &mut Vec<Work<'a>>, node: &'a Node) -> Result<(), OutOfMemory>
    ensures { OnOk result (Plans
        (λ context. value_run context node.now) work.old.items
        work.new.items) }
{
    let at = node.place;
    match &node.kind {
        NodeKind::Constant(n) => plan(work, &[Task::Constant(*n)]),
        NodeKind::Name(home, held) => plan_name(work, *home, *held, at),
        NodeKind::Unary(op, c, held, a) => plan_unary(work, *op, *c, *held, a, at),
        NodeKind::Step(how, c, held, a) => plan_step(work, *how, *c, *held, a, at),
        NodeKind::Cast(held, a) => plan_cast(work, *held, a),
        NodeKind::Binary(op, left, right, a, b) => {
            let act = BinaryAct {
                op: *op,
                left: *left,
                right: *right,
                at,
            };
            plan_binary(work, act, a, b)
        }
        NodeKind::Conditional(c, a, b) => plan_conditional(work, c, a, b),
        NodeKind::Assign(how, c, d, held, a, b) => plan_assign(work, *how, *c, *d, *held, a, b, at),
        NodeKind::Index(left, right, held, a, b) => {
            plan_index(work, *left, *right, *held, a, b, at)?;
            Ok(())
        }
        NodeKind::Call(target, all) => {
            plan_used_call(work, *target, all.as_slice(), at)?;
            Ok(())
        }
    }
}

/// What a pointer points to, as an address.
#[tactic(auto, using(c_semantics::proofs::RunLemmas::assoc))]
fn plan_pointer<'a>(work: &mut Vec<Work<'a>>, a: &'a Node) -> Result<(), OutOfMemory>
    ensures { OnOk result (Plans
        (λ context. pointer (value_run context a.now))
        work.old.items work.new.items) }
{
    plan(work, &[Task::Eval(Wanted::Value, a), Task::Count])
}

/// The value of an expression, which is dropped.
#[tactic(auto, using(c_semantics::proofs::RunLemmas::assoc))]
fn plan_ignored<'a>(work: &mut Vec<Work<'a>>, node: &'a Node) -> Result<(), OutOfMemory>
    ensures { OnOk result (PlansNothing
        (λ context. ignored (value_run context node.now))
        work.old.items work.new.items) }
{
    plan(work, &[Task::Eval(Wanted::Value, node), Task::Ignore])
}

/// What is to be done for the address of an expression. One that is no place has the address 0.
#[tactic(auto, using(c_resolve::proofs::ActionViews::views, c_semantics::proofs::RunLemmas::assoc))]
pub(crate) fn plan_address<'a>(work: &mut Vec<Work<'a>>, node: &'a Node) -> Result<(), OutOfMemory>
    ensures { OnOk result (Plans
        (λ context. (runs context node.now).address) work.old.items
        work.new.items) }
{
    let at = node.place;
    match &node.kind {
        NodeKind::Name(home, _) => plan(work, &[Task::Name(*home)]),
        NodeKind::Unary(_, _, _, a) => plan_pointer(work, a),
        NodeKind::Index(left, right, _, a, b) => {
            let sum = BinaryAct {
                op: Binary::Plus,
                left: *left,
                right: *right,
                at,
            };
            plan_strict(work, sum, a, b)
        }
        NodeKind::Constant(_) => plan(work, &[Task::Zero]),
        NodeKind::Step(_, _, _, _) => plan(work, &[Task::Zero]),
        NodeKind::Cast(_, _) => plan(work, &[Task::Zero]),
        NodeKind::Binary(_, _, _, _, _) => plan(work, &[Task::Zero]),
        NodeKind::Conditional(_, _, _) => plan(work, &[Task::Zero]),
        NodeKind::Assign(_, _, _, _, _, _) => plan(work, &[Task::Zero]),
        NodeKind::Call(_, _) => plan(work, &[Task::Zero]),
    }
}

/// A call whose value isn't used.
fn plan_unused_call<'a>(
    work: &mut Vec<Work<'a>>,
    target: Target,
    all: &'a [Node],
) -> Result<(), OutOfMemory>
    ensures { OnOk result (PlansNothing
        (λ context. ignored (call_of context target all.now))
        work.old.items work.new.items) }
{
    work.push(Work::Edge(Edge::Forget))?;
    plan(work, &[Task::Values(all), Task::Call(target, all.len())])?;
    Ok(())
}

/// What is to be done for an expression whose value isn't used.
#[tactic(auto, using(c_resolve::proofs::ActionViews::views, c_semantics::proofs::RunLemmas::assoc))]
pub(crate) fn plan_unused<'a>(work: &mut Vec<Work<'a>>, node: &'a Node) -> Result<(), OutOfMemory>
    ensures { OnOk result (PlansNothing
        (λ context. unused_run context node.now) work.old.items
        work.new.items) }
{
    match &node.kind {
        NodeKind::Call(target, all) => {
            plan_unused_call(work, *target, all.as_slice())?;
            Ok(())
        }
        NodeKind::Constant(_) => plan_ignored(work, node),
        NodeKind::Name(_, _) => plan_ignored(work, node),
        NodeKind::Unary(_, _, _, _) => plan_ignored(work, node),
        NodeKind::Step(_, _, _, _) => plan_ignored(work, node),
        NodeKind::Cast(_, _) => plan_ignored(work, node),
        NodeKind::Binary(_, _, _, _, _) => plan_ignored(work, node),
        NodeKind::Conditional(_, _, _) => plan_ignored(work, node),
        NodeKind::Assign(_, _, _, _, _, _) => plan_ignored(work, node),
        NodeKind::Index(_, _, _, _, _) => plan_ignored(work, node),
    }
}
