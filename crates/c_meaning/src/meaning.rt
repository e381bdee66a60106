//! What a program means.

ghost use Rattle.std.specs.Prelude.{◌≡◌, ℕ, List, Option, IfOk};
ghost use Rattle.c_tree.specs.Item.{Item};
ghost use Rattle.c_tree.specs.View.{items_of};
ghost use Rattle.c_layout.specs.Laid.{plan};
ghost use Rattle.c_layout.specs.LayoutAnswers.{plan_of};
ghost use Rattle.c_tree.specs.Declarators.{count_of};
ghost use Rattle.c_tree.specs.Arithmetic.{signed};
ghost use Rattle.c_meaning.specs.Answer.{meaning_of, Ends};
ghost use Rattle.c_resolve.specs.DeclaredNames.{numbered};
ghost use Rattle.c_semantics.specs.Eval.{enter};
ghost use Rattle.c_meaning.specs.private.EvaluatorState.{store_of};
ghost use Rattle.c_semantics.specs.Meaning.{definition, ended, main_name, meant, run_of, start};
ghost use Rattle.c_resolve.specs.Context.{Context};
ghost use Rattle.c_resolve.specs.Nodes.{target_run};
ghost use Rattle.c_meaning.specs.private.Pending.{given_by};
ghost use Rattle.c_semantics.specs.Run.{Ended};
ghost use Rattle.c_meaning.specs.private.Turned.{all_after};
ghost use Rattle.c_resolve.specs.Routines.{definitions_of};

use crate::evaluation::Evaluation;
use crate::halt::Halt;
use crate::machine::Machine;
use crate::machine::starting::start_memory;
use crate::meant::Meant;
use crate::output::Output;
use crate::pending::{Pending, Task, Work};
use bop_bits::STACK_TO;
use c_layout::Layout;
use c_resolve::{Target, resolve_text};
use c_semantics::Flow;
use c_tree::{Checked, OutOfMemory, Tree};
use std::alloc::Global;

/// A program before `main` starts.
fn start(alloc: Global, tree: &Tree, layout: &Layout, steps: u64) -> Result<Machine, OutOfMemory>
    requires { plan_of layout.now ≡ plan (items_of tree.now) }
    ensures store { IfOk result (λ machine. store_of machine ≡ start (items_of tree.now)) }
    ensures left { IfOk result (λ machine. machine.left ≡ steps) }
{
    Ok(Machine {
        memory: start_memory(alloc, tree, layout)?,
        sp: STACK_TO,
        cursor: 0,
        output: Output::new(alloc),
        left: steps,
    })
}

/// What a call of `main` names.
fn target_of(main: Option<u32>) -> Target
    ensures { (context : Context) → target_run context result
        ≡ enter context.calls (numbered context.definitions main) }
{
    match main {
        Some(number) => Target::Function(number),
        None => Target::Undefined,
    }
}

/// What is to be done at first: `main` is called.
fn call_main<'a>(alloc: Global, main: Option<u32>, steps: u64) -> Result<Pending<'a>, OutOfMemory>
    ensures { IfOk result (λ pending. (text : List Item) → (input : List ℕ) → (machine : Machine)
        → store_of machine ≡ start text → machine.left ≡ steps
        → numbered (definitions_of text) main ≡ definition text main_name →
        all_after (record { text = text; input = input })
        (record { pending = pending; machine = machine }) ≡ run_of text input steps) }
{
    let target = target_of(main);
    let mut work = Vec::new(alloc);
    work.push(Work::Task(Task::Call(target, 0)))?;
    Ok(Pending {
        work,
        values: Vec::new(alloc),
        flow: Flow::Normal,
        depth: steps,
    })
}

/// The value that `main` gave.
fn exit_of(flow: Flow) -> i32
    ensures { result ≡ signed (count_of (given_by flow)) }
{
    match flow {
        Flow::AtReturn(Some(value)) => value.cast_signed(),
        _ => 0,
    }
}

/// What a program means that has come to an end.
fn meant_by(done: Result<(), Halt>, flow: Flow, machine: Machine) -> Result<Meant, OutOfMemory>
    ensures { IfOk result (λ answer. (end : Ended (Option ℕ)) → Ends end flow machine done
        → meaning_of answer ≡ ended end) }
{
    let output = machine.output;
    match done {
        Ok(()) => Ok(Meant::Done(output, exit_of(flow))),
        Err(Halt::StackFull) => Ok(Meant::StackFull(output)),
        Err(Halt::More) => Ok(Meant::More(output)),
        Err(Halt::Undefined(act, at)) => Ok(Meant::Undefined(output, act, at)),
        Err(Halt::OutOfMemory) => Err(OutOfMemory),
    }
}

/// Evaluates a program with an input within so many steps, by the meaning of C. It stops at the first act that is undefined, at a call that finds no room on the stack, and where no step is left.
pub fn evaluate(
    alloc: Global,
    checked: &Checked,
    layout: &Layout,
    input: &[u8],
    steps: u64,
) -> Result<Meant, OutOfMemory>
    requires { plan_of layout.now ≡ plan (items_of checked.now.tree) }
    ensures { IfOk result (λ answer. meaning_of answer
        ≡ meant (items_of checked.now.tree) input.now steps) }
{
    let tree = checked.tree();
    let text = resolve_text(alloc, tree, layout)?;
    let machine = start(alloc, tree, layout, steps)?;
    let pending = call_main(alloc, text.main, steps)?;
    let mut evaluation = Evaluation { pending, machine };
    let done = evaluation.until_the_end(&text.all, input);
    meant_by(done, evaluation.pending.flow, evaluation.machine)
}
