//! Tasks on values that are at hand.

ghost use Rattle.std.specs.Prelude.{◌≡◌, reverse};
ghost use Rattle.c_semantics.specs.Eval.{first_of};
ghost use Rattle.c_resolve.specs.Nodes.{cast_value};
ghost use Rattle.c_meaning.specs.private.Pending.{below};
ghost use Rattle.c_meaning.specs.private.Turned.{Does, DoesAtOnce};
ghost use Rattle.c_semantics.specs.declared.flow.Flow.TheVariants.{Normal};
ghost use Rattle.c_meaning.specs.declared.pending.Task.TheVariants as task;

use crate::evaluation::Evaluation;
use crate::halt::Halt;
use crate::machine::act::{Assignment, BinaryAct, Stepping};
use c_semantics::{Flow, Held, Home, Local, Operand};
use c_tree::{Place, Unary};

/// Takes the topmost value. Where there is none, it is 0.
pub(crate) fn pop(values: &mut Vec<u32>) -> u32
    ensures value { result ≡ first_of (reverse values.old.items) }
    ensures left { reverse values.new.items ≡ below (reverse values.old.items) }
{
    values.pop().unwrap_or(0)
}

/// A value that is converted.
pub(crate) fn cast_value(held: Held, value: u32) -> u32
    ensures { result ≡ cast_value held value }
{
    match held {
        Held::Byte => value % 256,
        Held::Word => value,
        Held::Array => value,
    }
}

impl<'a> Evaluation<'a> {
    /// What an object holds at the address that is at hand.
    pub(crate) fn run_load(&mut self, held: Held, at: Place) -> Result<(), Halt>
        requires { self.old.pending.flow ≡ Normal }
        ensures { Does (task.Load held at) self.old self.new result }
    {
        let address = pop(&mut self.pending.values);
        let value = self.machine.load(held, address, at)?;
        self.pending.values.push(value)?;
        Ok(())
    }

    pub(crate) fn run_count(&mut self) -> Result<(), Halt>
        requires { self.old.pending.flow ≡ Normal }
        ensures { Does task.Count self.old self.new result }
    {
        self.machine.count()
    }

    pub(crate) fn run_cast(&mut self, held: Held) -> Result<(), Halt>
        requires { self.old.pending.flow ≡ Normal }
        ensures { Does (task.Cast held) self.old self.new result }
    {
        let value = pop(&mut self.pending.values);
        self.machine.count()?;
        self.pending.values.push(cast_value(held, value))?;
        Ok(())
    }

    /// The right operand of `&&` or `||` as a truth.
    pub(crate) fn run_truth(&mut self) -> Result<(), Halt>
        requires { self.old.pending.flow ≡ Normal }
        ensures { Does task.Truth self.old self.new result }
    {
        let value = pop(&mut self.pending.values);
        self.machine.count()?;
        self.pending.values.push(u32::from(value != 0))?;
        Ok(())
    }

    pub(crate) fn run_binary(&mut self, act: BinaryAct) -> Result<(), Halt>
        requires { self.old.pending.flow ≡ Normal }
        ensures { Does (task.Binary act) self.old self.new result }
    {
        let right = pop(&mut self.pending.values);
        let left = pop(&mut self.pending.values);
        self.machine.count()?;
        let value = self.machine.binary_act(act, left, right)?;
        self.pending.values.push(value)?;
        Ok(())
    }

    pub(crate) fn run_ignore(&mut self)
        requires { self.old.pending.flow ≡ Normal }
        ensures { DoesAtOnce task.Ignore self.old self.new }
    {
        pop(&mut self.pending.values);
    }

    /// A local takes its first value.
    pub(crate) fn run_init(&mut self, local: Local, held: Held, at: Place) -> Result<(), Halt>
        requires { self.old.pending.flow ≡ Normal }
        ensures { Does (task.Init local held at) self.old self.new
            result }
    {
        let value = pop(&mut self.pending.values);
        let address = self.machine.in_frame(local.offset);
        self.machine.store(held, address, value, at)?;
        Ok(())
    }

    pub(crate) fn run_return(&mut self, held: Held)
        requires { self.old.pending.flow ≡ Normal }
        ensures { DoesAtOnce (task.Return held) self.old self.new }
    {
        let value = pop(&mut self.pending.values);
        self.pending.flow = Flow::AtReturn(Some(cast_value(held, value)));
    }

    pub(crate) fn run_unary(&mut self, op: Unary, c: Operand, at: Place) -> Result<(), Halt>
        requires { self.old.pending.flow ≡ Normal }
        ensures { Does (task.Unary op c at) self.old self.new result }
    {
        let value = pop(&mut self.pending.values);
        self.machine.count()?;
        let value = self.machine.unary_act(op, c, value, at)?;
        self.pending.values.push(value)?;
        Ok(())
    }

    pub(crate) fn run_step(&mut self, stepping: Stepping) -> Result<(), Halt>
        requires { self.old.pending.flow ≡ Normal }
        ensures { Does (task.Step stepping) self.old self.new result }
    {
        let address = pop(&mut self.pending.values);
        self.machine.count()?;
        let value = self.machine.step(stepping, address)?;
        self.pending.values.push(value)?;
        Ok(())
    }

    pub(crate) fn run_assign(&mut self, assignment: Assignment) -> Result<(), Halt>
        requires { self.old.pending.flow ≡ Normal }
        ensures { Does (task.Assign assignment) self.old self.new result }
    {
        let value = pop(&mut self.pending.values);
        let address = pop(&mut self.pending.values);
        self.machine.count()?;
        let value = self.machine.assign(assignment, address, value)?;
        self.pending.values.push(value)?;
        Ok(())
    }

    pub(crate) fn run_constant(&mut self, value: u32) -> Result<(), Halt>
        requires { self.old.pending.flow ≡ Normal }
        ensures { Does (task.Constant value) self.old self.new result }
    {
        self.machine.count()?;
        self.pending.values.push(value)?;
        Ok(())
    }

    pub(crate) fn run_zero(&mut self) -> Result<(), Halt>
        requires { self.old.pending.flow ≡ Normal }
        ensures { Does (task.Zero) self.old self.new result }
    {
        self.pending.values.push(0)?;
        Ok(())
    }

    /// The address of a variable.
    pub(crate) fn run_name(&mut self, home: Home) -> Result<(), Halt>
        requires { self.old.pending.flow ≡ Normal }
        ensures { Does (task.Name home) self.old self.new result }
    {
        self.machine.count()?;
        let address = self.machine.address(home)?;
        self.pending.values.push(address)?;
        Ok(())
    }
}
