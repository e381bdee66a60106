//! What the tests run.

ghost use Rattle.std.specs.Prelude.{◌≤◌, length};

use bop_bits::{CODE_FROM, Classes};
use rv_code::{Bytes, Program, Words};
use rv_step::{Cpu, Job, State, Stepped, step_plain};
use std::alloc::Global;

/// A job of this code on this input, without data.
pub fn job_of(alloc: Global, code: &[u32], input: &[u8]) -> Option<Job>
    requires few { length code.now ≤ 1000 }
    requires short { length input.now ≤ 1000 }
{
    let code = Vec::from_slice(alloc, code).ok()?;
    let input = Vec::from_slice(alloc, input).ok()?;
    let program = Program {
        code: Words::of(code),
        bytes: Bytes::of(Vec::new(alloc)),
        classes: Classes {
            checked_from: 0,
            private_from: 0,
            private_to: 0,
        },
        entry: CODE_FROM,
        ends: [0; 256],
    };
    Some(Job::of(program, Bytes::of(input), 1_000_000, 1))
}

/// A state of zeros.
pub fn blank(alloc: Global) -> Option<State> {
    let job = job_of(alloc, &[], &[])?;
    State::start(alloc, &job).ok()
}

/// Puts the state before its first instruction, with x1 and x2, and makes a step at a word of code.
pub fn step(alloc: Global, state: &mut State, word: u32, a: u32, b: u32) -> Option<Stepped> {
    let job = job_of(alloc, &[word], &[])?;
    state.cpu = Cpu {
        x: [0; 32],
        pc: CODE_FROM,
        cursor: 0,
    };
    state.cpu.x[1] = a;
    state.cpu.x[2] = b;
    Some(step_plain(&job, &mut state.cpu, &mut state.image))
}
