//! Tasks that plan other work, by the values that are at hand.

ghost use Rattle.std.specs.Prelude.{◌≡◌};
ghost use Rattle.c_meaning.specs.private.Turned.{Does, DoesAtOnce};
ghost use Rattle.c_semantics.specs.declared.flow.Flow.TheVariants.{Normal};
ghost use Rattle.c_meaning.specs.declared.pending.Task.TheVariants as task;

use crate::evaluation::Evaluation;
use crate::halt::Halt;
use crate::pending::{Task, Wanted, Work};
use crate::planning::plan;
use crate::turning::tasks::pop;
use c_resolve::{Action, Begun, Node, Passed};
use c_semantics::Flow;
use c_tree::Binary;

impl<'a> Evaluation<'a> {
    /// The right operand, where the left one doesn't decide.
    pub(crate) fn run_logic(&mut self, op: Binary, right: &'a Node) -> Result<(), Halt>
        requires { self.old.pending.flow ≡ Normal }
        ensures { Does (task.Logic op right.entry) self.old self.new
            result }
    {
        let left = pop(&mut self.pending.values);
        if op.group().decides(left) {
            self.pending.values.push(left)?;
            Ok(())
        } else {
            plan(&mut self.pending.work, &[Task::Eval(Wanted::Value, right)])?;
            Ok(())
        }
    }

    /// One of two expressions, by the value of the test.
    pub(crate) fn run_conditional(&mut self, first: &'a Node, other: &'a Node) -> Result<(), Halt>
        requires { self.old.pending.flow ≡ Normal }
        ensures { Does (task.Conditional first.entry other.entry) self.old self.new result }
    {
        let test = pop(&mut self.pending.values);
        if test == 0 {
            plan(&mut self.pending.work, &[Task::Eval(Wanted::Value, other)])?;
            Ok(())
        } else {
            plan(&mut self.pending.work, &[Task::Eval(Wanted::Value, first)])?;
            Ok(())
        }
    }

    /// One of two statements, by the value of the test.
    pub(crate) fn run_if(
        &mut self,
        first: &'a Action,
        other: Option<&'a Action>,
    ) -> Result<(), Halt>
        requires { self.old.pending.flow ≡ Normal }
        ensures { Does (task.If first.entry other.entry) self.old self.new result }
    {
        let test = pop(&mut self.pending.values);
        if test != 0 {
            plan(&mut self.pending.work, &[Task::Execute(first)])?;
            return Ok(());
        }
        match other {
            None => Ok(()),
            Some(other) => {
                plan(&mut self.pending.work, &[Task::Execute(other)])?;
                Ok(())
            }
        }
    }

    /// Expressions, one behind the other.
    #[tactic(auto, using(c_semantics::proofs::RunLemmas::assoc))]
    pub(crate) fn run_values(&mut self, nodes: &'a [Node]) -> Result<(), Halt>
        requires { self.old.pending.flow ≡ Normal }
        ensures { Does (task.Values nodes.entry) self.old self.new
            result }
    {
        match nodes {
            [] => Ok(()),
            [first, rest @ ..] => {
                plan(
                    &mut self.pending.work,
                    &[Task::Eval(Wanted::Value, first), Task::Values(rest)],
                )?;
                Ok(())
            }
        }
    }

    /// Statements, one behind the other.
    #[tactic(auto, using(c_semantics::proofs::RunLemmas::assoc))]
    pub(crate) fn run_all(&mut self, actions: &'a [Action]) -> Result<(), Halt>
        requires { self.old.pending.flow ≡ Normal }
        ensures { Does (task.All actions.entry) self.old self.new result }
    {
        match actions {
            [] => Ok(()),
            [first, rest @ ..] => {
                plan(
                    &mut self.pending.work,
                    &[Task::Execute(first), Task::All(rest)],
                )?;
                Ok(())
            }
        }
    }

    pub(crate) fn run_end(&mut self, flow: Flow)
        requires { self.old.pending.flow ≡ Normal }
        ensures { DoesAtOnce (task.End flow) self.old self.new }
    {
        self.pending.flow = flow;
    }

    /// What a declarator does as it is passed.
    #[tactic(auto, using(c_semantics::proofs::RunLemmas::assoc))]
    pub(crate) fn run_var(&mut self, passed: &'a Passed) -> Result<(), Halt>
        requires { self.old.pending.flow ≡ Normal }
        ensures { Does (task.Var passed.entry) self.old self.new result }
    {
        let local = passed.local;
        match &passed.begun {
            Begun::Blank => {
                let address = self.machine.in_frame(local.offset);
                self.machine.memory.blank(address, local.size);
                Ok(())
            }
            Begun::Set(held, node) => {
                plan(
                    &mut self.pending.work,
                    &[
                        Task::Eval(Wanted::Value, node),
                        Task::Init(local, *held, passed.place),
                    ],
                )?;
                Ok(())
            }
            Begun::Nothing => Ok(()),
        }
    }

    /// Declarators, one behind the other.
    pub(crate) fn run_vars(&mut self, passed: &'a [Passed]) -> Result<(), Halt>
        requires { self.old.pending.flow ≡ Normal }
        ensures { Does (task.Vars passed.entry) self.old self.new result }
    {
        match passed {
            [] => Ok(()),
            [first, rest @ ..] => {
                plan(
                    &mut self.pending.work,
                    &[Task::Var(first), Task::Vars(rest)],
                )?;
                Ok(())
            }
        }
    }
}
