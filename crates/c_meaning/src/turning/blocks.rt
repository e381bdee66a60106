//! Blocks and their locals.

ghost use Rattle.std.specs.Prelude.{◌≡◌, OnOk};
ghost use Rattle.c_meaning.specs.private.Opened.{opened, opened_all};
ghost use Rattle.c_meaning.specs.private.Turned.{PlansFlow, Does, PassesAtOnce};
ghost use Rattle.c_meaning.specs.private.Pending.{begun_loop};
ghost use Rattle.c_semantics.specs.declared.flow.Flow.TheVariants.{Normal};
ghost use Rattle.c_meaning.specs.declared.pending.Edge.TheVariants as edge;
ghost use Rattle.c_meaning.specs.declared.pending.Task.TheVariants as task;
ghost use Rattle.c_meaning.specs.declared.pending.Work.TheVariants as item;

use crate::evaluation::Evaluation;
use crate::halt::Halt;
use crate::machine::Machine;
use crate::pending::{Edge, Loop, Stage, Task, Wanted, Work};
use crate::planning::plan;
use c_resolve::{Action, Beginning};
use c_semantics::{Local, Object};
use c_tree::OutOfMemory;

impl Machine {
    /// A local of the function that runs lives from now on, and isn't written.
    fn open(&mut self, local: Local) -> Result<(), OutOfMemory>
        ensures opened { OnOk result
            (self.new ≡ record self.old { memory = opened self.old.sp local self.old.memory }) }
    {
        let address = self.in_frame(local.offset);
        self.memory.open(Object {
            address,
            size: local.size,
        })?;
        self.memory.blank(address, local.size);
        Ok(())
    }

    /// Locals live from now on, and none is written.
    pub(crate) fn open_all(&mut self, locals: &[Local]) -> Result<(), OutOfMemory>
        ensures opened { OnOk result
            (self.new ≡ record self.old
            { memory = opened_all self.old.sp locals.now self.old.memory }) }
    {
        for local in locals {
            self.open(*local)?;
        }
        Ok(())
    }
}

/// What a `for` begins with, and then its loop.
#[tactic(auto, using(c_semantics::proofs::RunLemmas::assoc))]
fn plan_first<'a>(
    work: &mut Vec<Work<'a>>,
    first: &'a Beginning,
    parts: Loop<'a>,
) -> Result<(), OutOfMemory>
    ensures { OnOk result (PlansFlow
        (λ context. begun_loop context first.now parts.entry)
        work.old.items work.new.items) }
{
    match first {
        Beginning::Nothing => plan(work, &[Task::Loop(Stage::Begins, parts)]),
        Beginning::Vars(passed) => plan(
            work,
            &[Task::Vars(passed), Task::Loop(Stage::Begins, parts)],
        ),
        Beginning::Expr(node) => plan(
            work,
            &[
                Task::Eval(Wanted::Nothing, node),
                Task::Loop(Stage::Begins, parts),
            ],
        ),
    }
}

impl<'a> Evaluation<'a> {
    /// A block: its locals live until it ends.
    pub(crate) fn run_block(&mut self, locals: &'a [Local], body: &'a [Action]) -> Result<(), Halt>
        requires { self.old.pending.flow ≡ Normal }
        ensures { Does (task.Block locals.entry body.entry) self.old self.new result }
    {
        let live = self.machine.memory.live_count();
        self.pending.work.push(Work::Edge(Edge::Close(live)))?;
        plan(&mut self.pending.work, &[Task::All(body)])?;
        self.machine.open_all(locals)?;
        Ok(())
    }

    /// A `for` that was entered: the locals that it declares live until it ends.
    pub(crate) fn run_for(
        &mut self,
        locals: &'a [Local],
        first: &'a Beginning,
        parts: Loop<'a>,
    ) -> Result<(), Halt>
        requires { self.old.pending.flow ≡ Normal }
        ensures { Does (task.For locals.entry first.entry parts.entry) self.old self.new result }
    {
        let live = self.machine.memory.live_count();
        self.pending.work.push(Work::Edge(Edge::Close(live)))?;
        plan_first(&mut self.pending.work, first, parts)?;
        self.machine.open_all(locals)?;
        Ok(())
    }

    /// A block has ended: what lived before it lives on.
    pub(crate) fn end_block(&mut self, live: usize)
        ensures { PassesAtOnce (edge.Close live) self.old self.new }
    {
        self.machine.memory.close(live);
    }
}
