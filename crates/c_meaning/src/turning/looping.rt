//! Loops.

ghost use Rattle.std.specs.Prelude.{◌≡◌, OnOk};
ghost use Rattle.c_meaning.specs.private.Pending.{loop_again};
ghost use Rattle.c_meaning.specs.private.Turned.{PlansFlow, Turned, Does, Passes};
ghost use Rattle.c_semantics.specs.declared.flow.Flow.TheVariants.{Normal};
ghost use Rattle.c_meaning.specs.declared.pending.Edge.TheVariants as edge;
ghost use Rattle.c_meaning.specs.declared.pending.Stage.TheVariants as stage;
ghost use Rattle.c_meaning.specs.declared.pending.Task.TheVariants as task;
ghost use Rattle.c_meaning.specs.declared.pending.Work.TheVariants as item;

use crate::evaluation::Evaluation;
use crate::halt::Halt;
use crate::pending::{Edge, Loop, Stage, Task, Wanted, Work};
use crate::planning::plan;
use crate::turning::tasks::pop;
use c_semantics::Flow;
use c_tree::OutOfMemory;

/// How a loop goes on that has turned.
#[tactic(auto, using(c_semantics::proofs::RunLemmas::assoc))]
fn plan_again<'a>(work: &mut Vec<Work<'a>>, how: Stage, parts: Loop<'a>) -> Result<(), OutOfMemory>
    ensures { OnOk result (PlansFlow
        (λ context. loop_again context how parts.entry)
        work.old.items work.new.items) }
{
    match how {
        Stage::Begins => plan(work, &[Task::Loop(Stage::Begins, parts)]),
        Stage::Tests(most) => plan_loop_step(work, most, parts),
        Stage::Turns(most) => plan_loop_step(work, most, parts),
    }
}

/// The step of a loop, and then its test.
#[tactic(auto, using(c_semantics::proofs::RunLemmas::assoc))]
fn plan_loop_step<'a>(
    work: &mut Vec<Work<'a>>,
    most: u64,
    parts: Loop<'a>,
) -> Result<(), OutOfMemory>
    ensures { OnOk result (PlansFlow
        (λ context. loop_again context
        (stage.Tests most) parts.entry) work.old.items work.new.items) }
{
    match parts.step {
        None => plan(work, &[Task::Loop(Stage::Tests(most), parts)]),
        Some(node) => plan(
            work,
            &[
                Task::Eval(Wanted::Nothing, node),
                Task::Loop(Stage::Tests(most), parts),
            ],
        ),
    }
}

impl<'a> Evaluation<'a> {
    /// A loop that begins tests at most once more than there are steps, since each test but the last is followed by one. A step was taken before, so one more can be counted.
    pub(crate) fn begin_loop(&mut self, parts: Loop<'a>) -> Result<(), Halt>
        requires { self.old.pending.flow ≡ Normal }
        ensures { Does (task.Loop stage.Begins parts.entry) self.old self.new result }
    {
        let Some(most) = self.machine.left.checked_add(1) else {
            return Err(Halt::OutOfMemory);
        };
        plan(
            &mut self.pending.work,
            &[Task::Loop(Stage::Tests(most), parts)],
        )?;
        Ok(())
    }

    /// A loop tests. A test that is left out holds.
    #[tactic(auto, using(c_semantics::proofs::RunLemmas::assoc))]
    pub(crate) fn test_loop(&mut self, most: u64, parts: Loop<'a>) -> Result<(), Halt>
        requires { self.old.pending.flow ≡ Normal }
        ensures { Does (task.Loop (stage.Tests most) parts.entry) self.old self.new result }
    {
        if most == 0 {
            return Err(Halt::More);
        }
        match parts.test {
            None => {
                self.pending.values.push(1)?;
                plan(
                    &mut self.pending.work,
                    &[Task::Loop(Stage::Turns(most - 1), parts)],
                )?;
                Ok(())
            }
            Some(test) => {
                plan(
                    &mut self.pending.work,
                    &[
                        Task::Eval(Wanted::Value, test),
                        Task::Loop(Stage::Turns(most - 1), parts),
                    ],
                )?;
                Ok(())
            }
        }
    }

    /// A loop has tested.
    #[tactic(auto, using(c_semantics::proofs::RunLemmas::assoc))]
    pub(crate) fn turn_loop(&mut self, most: u64, parts: Loop<'a>) -> Result<(), Halt>
        requires { self.old.pending.flow ≡ Normal }
        ensures { Does (task.Loop (stage.Turns most) parts.entry) self.old self.new result }
    {
        if pop(&mut self.pending.values) == 0 {
            return Ok(());
        }
        self.machine.count()?;
        self.pending
            .work
            .push(Work::Edge(Edge::Turned(Stage::Tests(most), parts)))?;
        plan(&mut self.pending.work, &[Task::Execute(parts.body)])?;
        Ok(())
    }

    /// A loop has turned, and its body has ended somehow.
    pub(crate) fn end_turn(&mut self, how: Stage, parts: Loop<'a>) -> Result<(), Halt>
        ensures { Passes (edge.Turned how parts.entry) self.old self.new
            result }
    {
        match self.pending.flow {
            Flow::Normal | Flow::AtContinue => {
                self.pending.flow = Flow::Normal;
                plan_again(&mut self.pending.work, how, parts)?;
                Ok(())
            }
            Flow::AtBreak => {
                self.pending.flow = Flow::Normal;
                Ok(())
            }
            Flow::AtReturn(_) => Ok(()),
        }
    }
}
