//! What is run.

ghost use Rattle.std.specs.Prelude.{◌≡◌, ◌≤◌, ◌-◌, length};
ghost use Rattle.bop_bits.specs.declared.map.TheConstants.{CODE_WORDS, DATA_FROM, STACK_FROM};
ghost use Rattle.rv_step.specs.declared.limits.TheConstants.{INPUT_BYTES, BUDGET_LIMIT, GROUP_LIMIT};

use rv_code::{Bytes, Program};

/// A program with its input, the number of steps that it may take, and the size of its groups, all
/// within the limits.
#[derive(Drop)]
pub struct Job {
    pub program: Program,
    pub input: Bytes,
    pub budget: u64,
    pub group: u32,
    ghost code_fits: { length program.code ≤ CODE_WORDS },
    ghost data_fits: { length program.bytes ≤ STACK_FROM - DATA_FROM },
    ghost input_fits: { length input ≤ INPUT_BYTES },
    ghost some_budget: { 1 ≤ budget },
    ghost budget_fits: { budget ≤ BUDGET_LIMIT },
    ghost some_group: { 1 ≤ group },
    ghost group_fits: { group ≤ GROUP_LIMIT },
}

impl Job {
    pub fn of(program: Program, input: Bytes, budget: u64, group: u32) -> Job
        requires code { length program.code ≤ CODE_WORDS }
        requires data { length program.bytes ≤ STACK_FROM - DATA_FROM }
        requires input { length input ≤ INPUT_BYTES }
        requires some_budget { 1 ≤ budget }
        requires budget { budget ≤ BUDGET_LIMIT }
        requires some_group { 1 ≤ group }
        requires group { group ≤ GROUP_LIMIT }
        ensures program { result.program ≡ program }
        ensures input { result.input ≡ input }
        ensures budget { result.budget ≡ budget }
        ensures group { result.group ≡ group }
    {
        Job {
            program,
            input,
            budget,
            group,
        }
    }
}
