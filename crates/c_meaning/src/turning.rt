//! Work that is done piece by piece.

ghost use Rattle.std.specs.Prelude.{◌≡◌, ◌<◌, ◌⊎◌, [], OnOk};
ghost use Rattle.c_meaning.specs.private.Turned.{all_after, task_after, work_after, TurnsAmong, Does, Passes};
ghost use Rattle.c_semantics.specs.declared.flow.Flow.TheVariants.{Normal};
ghost use Rattle.c_meaning.specs.declared.pending.Edge.TheVariants as edge;
ghost use Rattle.c_meaning.specs.declared.pending.Task.TheVariants as task;
ghost use Rattle.c_meaning.specs.declared.pending.Work.TheVariants as item;

mod blocks;
mod calling;
mod choosing;
mod looping;
mod tasks;

use crate::evaluation::Evaluation;
use crate::halt::Halt;
use crate::pending::{Edge, Loop, Stage, Task, Wanted, Work};
use crate::planning::{evaluating, executing};
use c_resolve::{Action, Node, Routine};
use c_semantics::Flow;

/// How many pieces of work are done between two steps at most. No text that fits a file of the largest size comes near.
const MOST_TURNS: u64 = u64::MAX;

impl<'a> Evaluation<'a> {
    /// An expression is evaluated.
    fn run_eval(&mut self, wanted: Wanted, node: &'a Node) -> Result<(), Halt>
        requires { self.old.pending.flow ≡ Normal }
        ensures { Does (task.Eval wanted node.entry) self.old self.new
            result }
    {
        match wanted {
            Wanted::Value => evaluating::plan_value(&mut self.pending.work, node)?,
            Wanted::Address => evaluating::plan_address(&mut self.pending.work, node)?,
            Wanted::Nothing => evaluating::plan_unused(&mut self.pending.work, node)?,
        }
        Ok(())
    }

    /// A statement is executed.
    fn run_stmt(&mut self, action: &'a Action) -> Result<(), Halt>
        requires { self.old.pending.flow ≡ Normal }
        ensures { Does (task.Execute action.entry) self.old self.new
            result }
    {
        executing::plan_stmt(&mut self.pending.work, action)?;
        Ok(())
    }

    /// A loop goes on.
    fn run_loop(&mut self, stage: Stage, parts: Loop<'a>) -> Result<(), Halt>
        requires { self.old.pending.flow ≡ Normal }
        ensures { Does (task.Loop stage parts.entry) self.old self.new
            result }
    {
        match stage {
            Stage::Begins => self.begin_loop(parts),
            Stage::Tests(most) => self.test_loop(most, parts),
            Stage::Turns(most) => self.turn_loop(most, parts),
        }
    }

    /// A task is done.
    fn run_task(
        &mut self,
        task: Task<'a>,
        routines: &'a [Routine],
        input: &[u8],
    ) -> Result<(), Halt>
        requires { self.old.pending.flow ≡ Normal }
        ensures { TurnsAmong routines.entry.now input.now
            (λ program. task_after program task.entry self.old) self.new result }
    {
        match task {
            Task::Eval(wanted, node) => self.run_eval(wanted, node),
            Task::Constant(value) => self.run_constant(value),
            Task::Zero => self.run_zero(),
            Task::Name(home) => self.run_name(home),
            Task::Values(nodes) => self.run_values(nodes),
            Task::Load(held, at) => self.run_load(held, at),
            Task::Count => self.run_count(),
            Task::Unary(op, c, at) => self.run_unary(op, c, at),
            Task::Step(stepping) => self.run_step(stepping),
            Task::Cast(held) => self.run_cast(held),
            Task::Binary(act) => self.run_binary(act),
            Task::Logic(op, right) => self.run_logic(op, right),
            Task::Truth => self.run_truth(),
            Task::Conditional(first, other) => self.run_conditional(first, other),
            Task::Assign(assignment) => self.run_assign(assignment),
            Task::Call(target, count) => self.run_call(target, count, routines, input),
            Task::Ignore => Ok(self.run_ignore()),
            Task::Vars(passed) => self.run_vars(passed),
            Task::Var(passed) => self.run_var(passed),
            Task::Init(local, held, at) => self.run_init(local, held, at),
            Task::Execute(action) => self.run_stmt(action),
            Task::All(actions) => self.run_all(actions),
            Task::Block(locals, body) => self.run_block(locals, body),
            Task::For(locals, first, parts) => self.run_for(locals, first, parts),
            Task::If(first, other) => self.run_if(first, other),
            Task::Loop(stage, parts) => self.run_loop(stage, parts),
            Task::Return(held) => Ok(self.run_return(held)),
            Task::End(flow) => Ok(self.run_end(flow)),
        }
    }

    /// What was done before has ended somehow.
    fn pass_edge(&mut self, edge: Edge<'a>) -> Result<(), Halt>
        ensures { Passes edge.entry self.old self.new result }
    {
        match edge {
            Edge::Use(at) => self.take_value(at),
            Edge::Forget => Ok(self.forget()),
            Edge::Turned(stage, parts) => self.end_turn(stage, parts),
            Edge::Close(live) => Ok(self.end_block(live)),
            Edge::Leave(sp, is_main) => self.leave(sp, is_main),
        }
    }

    /// A piece of work is done. A task is left out where what was before it didn't end normally.
    fn turn(&mut self, work: Work<'a>, routines: &'a [Routine], input: &[u8]) -> Result<(), Halt>
        ensures { TurnsAmong routines.entry.now input.now
            (λ program. work_after program work.entry self.old) self.new result }
    {
        match work {
            Work::Task(task) => match self.pending.flow {
                Flow::Normal => self.run_task(task, routines, input),
                Flow::AtBreak => Ok(()),
                Flow::AtContinue => Ok(()),
                Flow::AtReturn(_) => Ok(()),
            },
            Work::Edge(edge) => self.pass_edge(edge),
        }
    }

    /// Works on until a step was taken, or all is done.
    fn until_a_step(&mut self, routines: &'a [Routine], input: &[u8]) -> Result<(), Halt>
        ensures turned { TurnsAmong routines.entry.now input.now
            (λ program. all_after program self.old) self.new result }
        ensures on { OnOk result
            ((self.new.pending.work.items ≡ [])
            ⊎ (self.new.machine.left < self.old.machine.left)) }
    {
        let before = self.machine.left;
        for _ in 0..MOST_TURNS {
            let Some(work) = self.pending.work.pop() else {
                return Ok(());
            };
            self.turn(work, routines, input)?;
            if self.machine.left < before {
                return Ok(());
            }
        }
        Err(Halt::OutOfMemory)
    }

    /// Works on until all is done.
    pub(crate) fn until_the_end(
        &mut self,
        routines: &'a [Routine],
        input: &[u8],
    ) -> Result<(), Halt>
        ensures turned { TurnsAmong routines.entry.now input.now
            (λ program. all_after program self.old) self.new result }
        ensures done { OnOk result (self.new.pending.work.items ≡ []) }
    {
        while !self.pending.work.is_empty() {
            self.until_a_step(routines, input)?;
        }
        Ok(())
    }
}
