//! Calls of functions.

ghost use Rattle.std.specs.Prelude.{◌≡◌, ◌<◌, ℕ, suc, List, IfOk, OnOk, drop, reverse, take};
ghost use Rattle.c_resolve.specs.Actions.{arguments_run};
ghost use Rattle.c_meaning.specs.private.Called.{passing_one, entered_after, routine_after, target_after};
ghost use Rattle.c_meaning.specs.private.EvaluatorState.{Ran};
ghost use Rattle.c_semantics.specs.Meaning.{value_of_flow};
ghost use Rattle.c_resolve.specs.Context.{Context};
ghost use Rattle.c_meaning.specs.private.Pending.{Program};
ghost use Rattle.c_meaning.specs.private.Turned.{task_after, Turned, TurnsAmong, Passes, PassesAtOnce};
ghost use Rattle.c_semantics.specs.declared.flow.Flow.TheVariants.{Normal};
ghost use Rattle.c_resolve.specs.declared.node.Target.TheVariants as target;
ghost use Rattle.c_meaning.specs.declared.pending.Edge.TheVariants as edge;
ghost use Rattle.c_meaning.specs.declared.pending.Task.TheVariants as task;
ghost use Rattle.c_meaning.specs.declared.pending.Work.TheVariants as item;

use crate::evaluation::Evaluation;
use crate::halt::Halt;
use crate::machine::Machine;
use crate::pending::{Edge, Task, Work};
use crate::planning::plan;
use bop_bits::STACK_FROM;
use c_resolve::{Parameter, Routine, Target, past};
use c_semantics::Flow;
use c_tree::{OutOfMemory, Place, Undefined};

/// Takes so many of the topmost values, in the order in which they came.
fn take_values(values: &mut Vec<u32>, count: usize) -> Result<Vec<u32>, OutOfMemory>
    ensures taken { IfOk result
        (λ taken. taken.items ≡ reverse (take count (reverse values.old.items))) }
    ensures left { OnOk result (reverse values.new.items ≡ drop count (reverse values.old.items)) }
{
    let from = values.len().saturating_sub(count);
    Ok(values.split_off(from)?)
}

impl Machine {
    /// Puts an argument into its parameter.
    fn pass_one(&mut self, parameter: Parameter, value: u32) -> Result<(), Halt>
        ensures { Ran (passing_one parameter value) self.old self.new result }
    {
        let address = self.in_frame(parameter.offset);
        self.store(parameter.held, address, value, parameter.place)?;
        Ok(())
    }

    /// Puts arguments into their parameters.
    fn pass_all(&mut self, parameters: &[Parameter], arguments: &[u32]) -> Result<(), Halt>
        ensures { (context : Context)
            → Ran (arguments_run context parameters.now arguments.now) self.old
            self.new result }
    {
        let mut rest = arguments;
        for parameter in parameters {
            let Some(value) = rest.first() else {
                return Ok(());
            };
            match self.pass_one(*parameter, *value) {
                Ok(()) => rest = past(rest, 1),
                Err(why) => return Err(why),
            }
        }
        Ok(())
    }
}

/// The value of a function whose body has ended so. The end of `main` gives 0.
fn value_of_flow(is_main: bool, flow: Flow) -> Option<u32>
    ensures { result ≡ value_of_flow is_main flow }
{
    match flow {
        Flow::AtReturn(value) => value,
        _ => is_main.then_some(0),
    }
}

impl<'a> Evaluation<'a> {
    /// The parameters of a function take their arguments, and its body begins.
    fn begin(&mut self, routine: &'a Routine, arguments: &[u32]) -> Result<(), Halt>
        requires { self.old.pending.flow ≡ Normal }
        ensures { (program : Program)
            → Turned program
            (entered_after program routine.now arguments.now self.old) self.new result }
    {
        let live = self.machine.memory.live_count();
        self.pending.work.push(Work::Edge(Edge::Close(live)))?;
        plan(&mut self.pending.work, &[Task::All(&routine.body)])?;
        self.machine.open_all(&routine.locals)?;
        self.machine.pass_all(&routine.parameters, arguments)
    }

    /// A function is entered, where the stack has room for its frame.
    fn enter(&mut self, routine: &'a Routine, arguments: &[u32]) -> Result<(), Halt>
        requires flow { self.old.pending.flow ≡ Normal }
        requires depth { 0 < self.old.pending.depth }
        ensures { (program : Program) (depth : ℕ)
            → self.old.pending.depth ≡ suc depth
            → Turned program
            (routine_after program routine.now arguments.now depth self.old) self.new result }
    {
        if u64::from(self.machine.sp) < u64::from(STACK_FROM) + u64::from(routine.frame) {
            return Err(Halt::StackFull);
        }
        self.pending
            .work
            .push(Work::Edge(Edge::Leave(self.machine.sp, routine.is_main)))?;
        self.pending.depth -= 1;
        self.machine.sp -= routine.frame;
        self.begin(routine, arguments)
    }

    /// A call of a function that the text defines, by its number. Calls nest as deep as there are steps at most.
    fn call_routine(
        &mut self,
        number: u32,
        arguments: &[u32],
        routines: &'a [Routine],
    ) -> Result<(), Halt>
        requires { self.old.pending.flow ≡ Normal }
        ensures { (input : List ℕ) → TurnsAmong routines.entry.now input
            (λ program. target_after program (target.Function number) arguments.now self.old) self.new result }
    {
        let Some(routine) = routines.get(number as usize) else {
            self.pending.flow = Flow::AtReturn(None);
            return Ok(());
        };
        if self.pending.depth == 0 {
            return Err(Halt::More);
        }
        self.enter(routine, arguments)
    }

    /// A call with arguments that are at hand.
    fn run_target(
        &mut self,
        target: Target,
        arguments: &[u32],
        routines: &'a [Routine],
        input: &[u8],
    ) -> Result<(), Halt>
        requires { self.old.pending.flow ≡ Normal }
        ensures { TurnsAmong routines.entry.now input.now
            (λ program. target_after program target arguments.now self.old) self.new result }
    {
        match target {
            Target::Function(number) => self.call_routine(number, arguments, routines),
            Target::Getchar => {
                self.pending.flow = Flow::AtReturn(self.machine.getchar(input)?);
                Ok(())
            }
            Target::Putchar => {
                self.pending.flow = Flow::AtReturn(
                    self.machine
                        .putchar(arguments.first().copied().unwrap_or(0))?,
                );
                Ok(())
            }
            Target::Undefined => {
                self.pending.flow = Flow::AtReturn(None);
                Ok(())
            }
        }
    }

    /// A call, whose arguments are the topmost values.
    pub(crate) fn run_call(
        &mut self,
        target: Target,
        count: usize,
        routines: &'a [Routine],
        input: &[u8],
    ) -> Result<(), Halt>
        requires { self.old.pending.flow ≡ Normal }
        ensures { TurnsAmong routines.entry.now input.now
            (λ program. task_after program (task.Call target count) self.old) self.new result }
    {
        self.machine.count()?;
        let arguments = take_values(&mut self.pending.values, count)?;
        self.run_target(target, &arguments, routines, input)
    }

    /// The value of a call is used.
    pub(crate) fn take_value(&mut self, at: Place) -> Result<(), Halt>
        ensures { Passes (edge.Use at) self.old self.new result }
    {
        let Flow::AtReturn(Some(value)) = self.pending.flow else {
            return Err(Halt::Undefined(Undefined::NoValue, at));
        };
        self.pending.flow = Flow::Normal;
        self.pending.values.push(value)?;
        Ok(())
    }

    /// The value of a call isn't used.
    pub(crate) fn forget(&mut self)
        ensures { PassesAtOnce edge.Forget self.old self.new }
    {
        self.pending.flow = Flow::Normal;
    }

    /// A function has ended.
    pub(crate) fn leave(&mut self, sp: u32, is_main: bool) -> Result<(), Halt>
        ensures { Passes (edge.Leave sp is_main) self.old self.new
            result }
    {
        self.pending.depth = self.pending.depth.checked_add(1).ok_or(Halt::OutOfMemory)?;
        self.pending.flow = Flow::AtReturn(value_of_flow(is_main, self.pending.flow));
        self.machine.sp = sp;
        Ok(())
    }
}
