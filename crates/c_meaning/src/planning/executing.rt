//! Statements that are to be executed.

ghost use Rattle.std.specs.Prelude.{◌≡◌, OnOk};
ghost use Rattle.c_resolve.specs.Context.{Context};
ghost use Rattle.std.specs.Option.{option_copied};
ghost use Rattle.c_resolve.specs.Actions.{action_run, boxed_run, first_run, block_run, for_run, return_flow_run, return_run, step_run, test_run, if_run, vars_run, do_run, ends_with, expr_run, passing, unused_run, value_run, while_run, else_run};
ghost use Rattle.c_meaning.specs.private.Turned.{PlansFlow};

use crate::pending::{Edge, Loop, Stage, Task, Wanted, Work};
use crate::planning::plan;
use c_resolve::{Action, Beginning, Node, Passed};
use c_semantics::{Flow, Held, Local};
use c_tree::OutOfMemory;

/// A statement that only ends.
#[tactic(auto, using(c_semantics::proofs::RunLemmas::assoc))]
fn plan_end(work: &mut Vec<Work<'_>>, flow: Flow) -> Result<(), OutOfMemory>
    ensures { OnOk result (PlansFlow
        (λ context. ends_with flow) work.old.items work.new.items) }
{
    plan(work, &[Task::Count, Task::End(flow)])
}

#[tactic(auto, using(c_semantics::proofs::RunLemmas::assoc))]
fn plan_expr<'a>(work: &mut Vec<Work<'a>>, node: &'a Node) -> Result<(), OutOfMemory>
    ensures { OnOk result (PlansFlow
        (λ context. expr_run (unused_run context node.now))
        work.old.items work.new.items) }
{
    plan(work, &[Task::Count, Task::Eval(Wanted::Nothing, node)])
}

#[tactic(auto, using(c_semantics::proofs::RunLemmas::assoc))]
fn plan_vars<'a>(
    work: &mut Vec<Work<'a>>,
    counted: bool,
    passed: &'a [Passed],
) -> Result<(), OutOfMemory>
    ensures { OnOk result (PlansFlow
        (λ context. vars_run counted (passing context passed.now))
        work.old.items work.new.items) }
{
    if counted {
        plan(work, &[Task::Count, Task::Vars(passed)])
    } else {
        plan(work, &[Task::Vars(passed)])
    }
}

/// The branch of an `if` that may be left out.
fn else_action(other: &Option<Box<Action>>) -> Option<&Action>
    ensures { (context : Context)
        → else_run (action_run context) (option_copied result)
        ≡ else_run (boxed_run context) other.now }
{
    match other {
        None => None,
        Some(action) => Some(action),
    }
}

/// An `if`, with an `else` or without.
#[tactic(auto, using(c_semantics::proofs::RunLemmas::assoc))]
fn plan_if<'a>(
    work: &mut Vec<Work<'a>>,
    test: &'a Node,
    body: &'a Action,
    other: Option<&'a Action>,
) -> Result<(), OutOfMemory>
    ensures { OnOk result (PlansFlow
        (λ context. if_run (value_run context test.now)
        (action_run context body.now)
        (else_run (action_run context) (option_copied other.entry)))
        work.old.items work.new.items) }
{
    plan(
        work,
        &[
            Task::Count,
            Task::Eval(Wanted::Value, test),
            Task::If(body, other),
        ],
    )
}

#[tactic(auto, using(c_semantics::proofs::RunLemmas::assoc))]
fn plan_while<'a>(
    work: &mut Vec<Work<'a>>,
    test: &'a Node,
    body: &'a Action,
) -> Result<(), OutOfMemory>
    ensures { OnOk result (PlansFlow
        (λ context. while_run (value_run context test.now)
        (action_run context body.now)) work.old.items work.new.items) }
{
    let parts = Loop {
        test: Some(test),
        step: None,
        body,
    };
    plan(work, &[Task::Count, Task::Loop(Stage::Begins, parts)])
}

/// A `do`, whose body is executed before its first test.
fn plan_do<'a>(
    work: &mut Vec<Work<'a>>,
    body: &'a Action,
    test: &'a Node,
) -> Result<(), OutOfMemory>
    ensures { OnOk result (PlansFlow
        (λ context. do_run (action_run context body.now)
        (value_run context test.now)) work.old.items work.new.items) }
{
    let parts = Loop {
        test: Some(test),
        step: None,
        body,
    };
    work.push(Work::Edge(Edge::Turned(Stage::Begins, parts)))?;
    plan(work, &[Task::Count, Task::Count, Task::Execute(body)])?;
    Ok(())
}

/// A `for`.
#[tactic(auto, using(c_semantics::proofs::RunLemmas::assoc))]
fn plan_for<'a>(
    work: &mut Vec<Work<'a>>,
    locals: &'a [Local],
    first: &'a Beginning,
    test: Option<&'a Node>,
    step: Option<&'a Node>,
    body: &'a Action,
) -> Result<(), OutOfMemory>
    ensures { OnOk result (PlansFlow
        (λ context. for_run locals.now
        (first_run context first.now)
        (test_run context (option_copied test.entry))
        (step_run context (option_copied step.entry))
        (action_run context body.now)) work.old.items work.new.items) }
{
    let parts = Loop { test, step, body };
    plan(work, &[Task::Count, Task::For(locals, first, parts)])
}

/// A `return`.
#[tactic(auto, using(c_semantics::proofs::RunLemmas::assoc))]
fn plan_return<'a>(
    work: &mut Vec<Work<'a>>,
    held: Held,
    value: Option<&'a Node>,
) -> Result<(), OutOfMemory>
    ensures { OnOk result (PlansFlow
        (λ context. return_run
        (return_flow_run context held (option_copied value.entry)))
        work.old.items work.new.items) }
{
    match value {
        None => plan(work, &[Task::Count, Task::End(Flow::AtReturn(None))]),
        Some(value) => plan(
            work,
            &[
                Task::Count,
                Task::Eval(Wanted::Value, value),
                Task::Return(held),
            ],
        ),
    }
}

#[tactic(auto, using(c_semantics::proofs::RunLemmas::assoc))]
fn plan_block<'a>(
    work: &mut Vec<Work<'a>>,
    locals: &'a [Local],
    body: &'a [Action],
) -> Result<(), OutOfMemory>
    ensures { OnOk result (PlansFlow
        (λ context. block_run context locals.now body.now)
        work.old.items work.new.items) }
{
    plan(work, &[Task::Block(locals, body)])
}

/// What is to be done for a statement.
#[tactic(auto, using(c_resolve::proofs::ActionViews::views))]
pub(crate) fn plan_stmt<'a>(work: &mut Vec<Work<'a>>, action: &'a Action) -> Result<(), OutOfMemory>
    ensures { OnOk result (PlansFlow
        (λ context. action_run context action.now) work.old.items
        work.new.items) }
{
    match action {
        Action::Empty => plan_end(work, Flow::Normal),
        Action::Expr(node) => plan_expr(work, node),
        Action::Vars(counted, passed) => plan_vars(work, *counted, passed),
        Action::Block(locals, body) => {
            plan_block(work, locals, body)?;
            Ok(())
        }
        Action::If(test, body, other) => {
            let branch = else_action(other);
            plan_if(work, test, body, branch)?;
            Ok(())
        }
        Action::While(test, body) => plan_while(work, test, body),
        Action::Do(body, test) => plan_do(work, body, test),
        Action::For(locals, first, test, step, body) => {
            plan_for(work, locals, first, test.as_ref(), step.as_ref(), body)?;
            Ok(())
        }
        Action::Return(held, value) => plan_return(work, *held, value.as_ref()),
        Action::Break => plan_end(work, Flow::AtBreak),
        Action::Continue => plan_end(work, Flow::AtContinue),
    }
}
