//! Statements.

ghost use Rattle.std.specs.Prelude.{◌≡◌, ℕ, [], List, drop, length, map, option_map, IfOk, OnOk};
ghost use Rattle.c_tree.specs.declared.place.Place.{Place as At};
ghost use Rattle.c_tree.specs.Stmt as stmt;
ghost use Rattle.c_tree.specs.View.{expr_of, var_of, first_of, ty_of, boxed_stmt_of, else_of, stmt_of, stmts_of};
ghost use Rattle.c_layout.specs.Frames.{else_locals, body_locals};
ghost use Rattle.c_resolve.specs.private.Acted.{AreNames, ActionDoes, IsActionOf, IsBeginningOf, IsTestOf, IsStepOf, IsElseOf, AreActionsOf};
ghost use Rattle.c_resolve.specs.DeclaredNames.{IsKept, IsSame};
ghost use Rattle.c_resolve.specs.Actions.{action_run, boxed_run, if_run, else_run, value_run};
ghost use Rattle.c_semantics.specs.Exec.{beginning_own, behind, block_locals, declared_locals, named_beginning, named_behind, statement_locals, with_locals_named};
ghost use Rattle.c_resolve.specs.private.Resolved.{IsNodeOf};

use crate::action::{Action, Beginning};
use crate::declaration::{first_count, has_init, resolve_first, resolve_vars};
use crate::expression::resolve;
use crate::kinds::held_of;
use crate::names::Names;
use crate::node::Node;
use crate::places::past;
use c_semantics::Local;
use c_tree::{CType, Expr, First, OutOfMemory, Stmt, StmtKind, Var};
use std::alloc::Global;

/// What a statement does, the objects that it declares itself, and the offsets after it.
#[derive(Debug, Drop)]
pub(super) struct Acted<'a> {
    action: Action,
    own: Vec<Local>,
    rest: &'a [u32],
}

/// What the branch of an `if` does that may be left out, and the offsets after it.
#[derive(Debug, Drop)]
struct ElseBranch<'a> {
    action: Option<Box<Action>>,
    rest: &'a [u32],
}

/// The test and the body of a loop, and the offsets after it.
#[derive(Debug, Drop)]
struct Turn<'a> {
    test: Node,
    body: Box<Action>,
    rest: &'a [u32],
}

/// What a block's statements do, its own locals, and the offsets after it.
#[derive(Debug, Drop)]
pub(super) struct Body<'a> {
    pub(super) locals: Vec<Local>,
    pub(super) actions: Vec<Action>,
    pub(super) rest: &'a [u32],
}

/// An expression whose value isn't used.
fn resolve_expr_stmt(e: &Expr, names: &Names) -> Result<Action, OutOfMemory>
    ensures { IfOk result (λ action. (places : List ℕ) → (gives : CType) → (at : At)
        → IsActionOf names.now places (ty_of gives) action (stmt.Expr (expr_of e.now) at)) }
{
    Ok(Action::Expr(resolve(e, names)?.node))
}

/// A declaration, whose names are then in scope.
fn resolve_vars_stmt<'a>(
    vars: &[Var],
    places: &'a [u32],
    names: &mut Names,
) -> Result<Acted<'a>, OutOfMemory>
    ensures names { OnOk result
        (AreNames names.old names.new (with_locals_named places.now (map var_of vars.now))) }
    ensures kept { OnOk result (IsKept names.old names.new) }
    ensures own { IfOk result
        (λ acted. acted.own.items ≡ declared_locals places.now (map var_of vars.now)) }
    ensures rest { IfOk result
        (λ acted. acted.rest.now ≡ drop (length (map var_of vars.now)) places.now) }
    ensures means { IfOk result
        (λ acted. (gives : CType) → (at : At)
        → IsActionOf names.old places.now (ty_of gives) acted.action
        (stmt.Vars (map var_of vars.now) at)) }
{
    let counted = has_init(vars);
    let declared = resolve_vars(vars, places, names)?;
    Ok(Acted {
        action: Action::Vars(counted, declared.passed),
        own: declared.own,
        rest: past(places, vars.len()),
    })
}

/// A `return`, in a function that gives a type.
fn resolve_return(value: &Option<Expr>, gives: &CType, names: &Names) -> Result<Action, OutOfMemory>
    ensures { IfOk result (λ action. (places : List ℕ) → (at : At)
        → IsActionOf names.now places (ty_of gives.now) action
        (stmt.Return (option_map expr_of value.now) at)) }
{
    let holds = held_of(gives);
    match value {
        None => Ok(Action::Return(holds, None)),
        Some(e) => Ok(Action::Return(holds, Some(resolve(e, names)?.node))),
    }
}

/// An expression that may be left out.
fn resolve_optional(e: &Option<Expr>, names: &Names) -> Result<Option<Node>, OutOfMemory>
    ensures test { IfOk result
        (λ node. IsTestOf names.now node (option_map expr_of e.now)) }
    ensures step { IfOk result
        (λ node. IsStepOf names.now node (option_map expr_of e.now)) }
{
    match e {
        None => Ok(None),
        Some(e) => Ok(Some(resolve(e, names)?.node)),
    }
}

/// What a `for` does before its body.
#[derive(Debug, Drop)]
struct Head {
    own: Vec<Local>,
    begins: Beginning,
    test: Option<Node>,
    step: Option<Node>,
}

/// The head of a `for`, whose names are then in scope.
fn resolve_for_head(
    first: &First,
    test: &Option<Expr>,
    step: &Option<Expr>,
    places: &[u32],
    names: &mut Names,
) -> Result<Head, OutOfMemory>
    ensures names { OnOk result
        (AreNames names.old names.new (named_beginning places.now (first_of first.now))) }
    ensures kept { OnOk result (IsKept names.old names.new) }
    ensures own { IfOk result
        (λ head. head.own.items ≡ beginning_own places.now (first_of first.now)) }
    ensures begins { IfOk result
        (λ head. IsBeginningOf names.old places.now head.begins (first_of first.now)) }
    ensures test { IfOk result
        (λ head. IsTestOf names.new head.test (option_map expr_of test.now)) }
    ensures step { IfOk result
        (λ head. IsStepOf names.new head.step (option_map expr_of step.now)) }
{
    let begins = resolve_first(first, places, names)?;
    Ok(Head {
        own: begins.own,
        begins: begins.beginning,
        test: resolve_optional(test, names)?,
        step: resolve_optional(step, names)?,
    })
}

/// An `if`, with an `else` or without.
#[tactic(auto, using(crate::proofs::ActionViews::views))]
fn build_if(
    alloc: Global,
    test: Node,
    body: Action,
    other: Option<Box<Action>>,
) -> Result<Action, OutOfMemory>
    ensures { IfOk result (λ action. ActionDoes action (λ context.
        if_run (value_run context test) (action_run context body)
        (else_run (boxed_run context) other))) }
{
    let body = Box::new(alloc, body)?;
    Ok(Action::If(test, body, other))
}

/// A statement whose names are out of scope after it.
#[cycle(statement)]
fn resolve_inner<'a>(
    s: &Stmt,
    places: &'a [u32],
    gives: &CType,
    names: &mut Names,
) -> Result<Acted<'a>, OutOfMemory>
    ensures same { OnOk result (IsSame names.old names.new) }
    ensures rest { IfOk result (λ acted. acted.rest.now ≡ behind (stmt_of s.now) places.now) }
    ensures means { IfOk result
        (λ acted. IsActionOf names.old places.now (ty_of gives.now) acted.action (stmt_of s.now)) }
{
    names.enter()?;
    let acted = resolve_stmt(s, places, gives, names)?;
    names.leave();
    Ok(acted)
}

/// The branch of an `if` that may be left out.
#[cycle(statement)]
fn resolve_else<'a>(
    other: &Option<Box<Stmt>>,
    places: &'a [u32],
    gives: &CType,
    names: &mut Names,
) -> Result<ElseBranch<'a>, OutOfMemory>
    ensures same { OnOk result (IsSame names.old names.new) }
    ensures rest { IfOk result (λ branch. branch.rest.now
        ≡ drop (length (else_locals (else_of boxed_stmt_of other.now))) places.now) }
    ensures means { IfOk result
        (λ branch. IsElseOf names.old places.now (ty_of gives.now) branch.action
        (else_of boxed_stmt_of other.now)) }
{
    match other {
        None => Ok(ElseBranch {
            action: None,
            rest: places,
        }),
        Some(other) => {
            let acted = resolve_inner(other, places, gives, names)?;
            let action = Box::new(names.alloc, acted.action)?;
            Ok(ElseBranch {
                action: Some(action),
                rest: acted.rest,
            })
        }
    }
}

/// The test and the body of a loop, in whichever order it has them.
#[cycle(statement)]
fn resolve_turn<'a>(
    body: &Stmt,
    test: &Expr,
    places: &'a [u32],
    gives: &CType,
    names: &mut Names,
) -> Result<Turn<'a>, OutOfMemory>
    ensures same { OnOk result (IsSame names.old names.new) }
    ensures rest { IfOk result (λ turn. turn.rest.now ≡ behind (stmt_of body.now) places.now) }
    ensures test { IfOk result (λ turn. IsNodeOf names.old turn.test (expr_of test.now)) }
    ensures body { IfOk result
        (λ turn. IsActionOf names.old places.now (ty_of gives.now) turn.body.value
        (stmt_of body.now)) }
{
    let test = resolve(test, names)?.node;
    let acted = resolve_inner(body, places, gives, names)?;
    let body = Box::new(names.alloc, acted.action)?;
    let rest = acted.rest;
    Ok(Turn { test, body, rest })
}

/// A `for`, whose names are out of scope after it.
#[cycle(statement)]
fn resolve_for<'a>(
    first: &First,
    test: &Option<Expr>,
    step: &Option<Expr>,
    body: &Stmt,
    places: &'a [u32],
    gives: &CType,
    names: &mut Names,
) -> Result<Acted<'a>, OutOfMemory>
    ensures same { OnOk result (IsSame names.old names.new) }
    ensures own { IfOk result (λ acted. acted.own.items ≡ []) }
    ensures rest { (at : At)
        → IfOk result (λ acted. acted.rest.now
        ≡ behind (stmt.For (first_of first.now) (option_map expr_of test.now)
        (option_map expr_of step.now) (stmt_of body.now) at) places.now) }
    ensures means { (at : At)
        → IfOk result (λ acted. IsActionOf names.old places.now (ty_of gives.now) acted.action
        (stmt.For (first_of first.now) (option_map expr_of test.now)
        (option_map expr_of step.now) (stmt_of body.now) at)) }
{
    names.enter()?;
    let head = resolve_for_head(first, test, step, places, names)?;
    let inner = past(places, first_count(first));
    let acted = resolve_stmt(body, inner, gives, names)?;
    names.leave();
    let body = Box::new(names.alloc, acted.action)?;
    Ok(Acted {
        action: Action::For(head.own, head.begins, head.test, head.step, body),
        own: Vec::new(names.alloc),
        rest: acted.rest,
    })
}

/// A block, whose names are out of scope after it.
#[cycle(statement)]
fn resolve_block<'a>(
    body: &[Stmt],
    places: &'a [u32],
    gives: &CType,
    names: &mut Names,
) -> Result<Acted<'a>, OutOfMemory>
    ensures same { OnOk result (IsSame names.old names.new) }
    ensures own { IfOk result (λ acted. acted.own.items ≡ []) }
    ensures rest { IfOk result
        (λ acted. acted.rest.now ≡ drop (length (body_locals (stmts_of body.now))) places.now) }
    ensures means { (at : At)
        → IfOk result (λ acted. IsActionOf names.old places.now (ty_of gives.now) acted.action
        (stmt.Block (stmts_of body.now) at)) }
{
    names.enter()?;
    let body = resolve_body(body, places, gives, names)?;
    names.leave();
    Ok(Acted {
        action: Action::Block(body.locals, body.actions),
        own: Vec::new(names.alloc),
        rest: body.rest,
    })
}

/// A statement of a function that gives a type. The names that it declares are then in scope.
#[cycle(statement)]
#[tactic(auto, using(c_tree::proofs::ViewLemmas::views))]
fn resolve_stmt<'a>(
    s: &Stmt,
    places: &'a [u32],
    gives: &CType,
    names: &mut Names,
) -> Result<Acted<'a>, OutOfMemory>
    ensures names { OnOk result
        (AreNames names.old names.new (named_behind places.now (stmt_of s.now))) }
    ensures kept { OnOk result (IsKept names.old names.new) }
    ensures own { IfOk result
        (λ acted. acted.own.items ≡ statement_locals places.now (stmt_of s.now)) }
    ensures rest { IfOk result (λ acted. acted.rest.now ≡ behind (stmt_of s.now) places.now) }
    ensures means { IfOk result
        (λ acted. IsActionOf names.old places.now (ty_of gives.now) acted.action (stmt_of s.now)) }
{
    let own = Vec::new(names.alloc);
    let rest = places;
    match &s.kind {
        StmtKind::Empty => {
            let action = Action::Empty;
            Ok(Acted { action, own, rest })
        }
        StmtKind::Expr(e) => {
            let action = resolve_expr_stmt(e, names)?;
            Ok(Acted { action, own, rest })
        }
        StmtKind::Vars(vars) => resolve_vars_stmt(vars, places, names),
        StmtKind::Block(body) => resolve_block(body, places, gives, names),
        StmtKind::Marker(_) => {
            let action = Action::Empty;
            Ok(Acted { action, own, rest })
        }
        StmtKind::If(test, then, other) => {
            let test = resolve(test, names)?.node;
            let yes = resolve_inner(then, places, gives, names)?;
            let no = resolve_else(other, yes.rest, gives, names)?;
            let action = build_if(names.alloc, test, yes.action, no.action)?;
            let rest = no.rest;
            Ok(Acted { action, own, rest })
        }
        StmtKind::While(test, body) => {
            let turn = resolve_turn(body, test, places, gives, names)?;
            let action = Action::While(turn.test, turn.body);
            let rest = turn.rest;
            Ok(Acted { action, own, rest })
        }
        StmtKind::Do(body, test) => {
            let turn = resolve_turn(body, test, places, gives, names)?;
            let action = Action::Do(turn.body, turn.test);
            let rest = turn.rest;
            Ok(Acted { action, own, rest })
        }
        StmtKind::For(first, test, step, body) => {
            resolve_for(first, test, step, body, places, gives, names)
        }
        StmtKind::Return(value) => {
            let action = resolve_return(value, gives, names)?;
            Ok(Acted { action, own, rest })
        }
        StmtKind::Break => {
            let action = Action::Break;
            Ok(Acted { action, own, rest })
        }
        StmtKind::Continue => {
            let action = Action::Continue;
            Ok(Acted { action, own, rest })
        }
    }
}

/// The statements of a block of a function that gives a type. The names that they declare are then in scope.
#[cycle(statement)]
pub(super) fn resolve_body<'a>(
    body: &[Stmt],
    places: &'a [u32],
    gives: &CType,
    names: &mut Names,
) -> Result<Body<'a>, OutOfMemory>
    ensures kept { OnOk result (IsKept names.old names.new) }
    ensures rest { IfOk result
        (λ b. b.rest.now ≡ drop (length (body_locals (stmts_of body.now))) places.now) }
    ensures locals { IfOk result
        (λ b. b.locals.items ≡ block_locals places.now (stmts_of body.now)) }
    ensures means { IfOk result
        (λ b. AreActionsOf names.old places.now (ty_of gives.now) b.actions.items
        (stmts_of body.now)) }
{
    let mut locals = Vec::new(names.alloc);
    let mut actions = Vec::new(names.alloc);
    let mut rest = places;
    for s in body {
        let acted = resolve_stmt(s, rest, gives, names)?;
        locals.extend_from_slice(&acted.own)?;
        actions.push(acted.action)?;
        rest = acted.rest;
    }
    Ok(Body {
        locals,
        actions,
        rest,
    })
}
