//! Runs a loop on the machine for a number of steps, to time it.
#![tactic(auto)]

use access_log::Log;
use bop_bits::{CODE_FROM, Classes, STACK_PAGE};
use rv_code::{Bytes, Program, Words};
use rv_run::{Piece, advance};
use rv_step::{BUDGET_LIMIT, Job, State, step, step_plain};
use std::alloc::Global;
use std::env;

/// ADDI, XOR, SLLI, ADD, SUB, MUL, SLTU and BNE.
const ARITHMETIC: [u32; 11] = [
    0xffff_f437,
    0x0010_8093,
    0x0011_4133,
    0x0030_9193,
    0x0032_0233,
    0x4022_02b3,
    0x0212_8333,
    0x0062_b3b3,
    0xfe80_92e3,
    0,
    0,
];

/// LW, ADDI, SW, LBU, SB, ADDI and BLTU over a page, again and again.
const MEMORY: [u32; 11] = [
    0x0010_04b7,
    0x0010_15b7,
    0x0004_a083,
    0x0030_8093,
    0x0014_a223,
    0x0014_c103,
    0x0024_84a3,
    0x0044_8493,
    0xfeb4_e4e3,
    0x0010_04b7,
    0xfe1f_f06f,
];

/// JAL, ADD, ADDI and BNE, and a function of ANDI, BEQ, ADDI and JALR.
const CALLS: [u32; 11] = [
    0xffff_f437,
    0x0000_0093,
    0x0100_00ef,
    0x0061_81b3,
    0x0015_0513,
    0xfe85_1ae3,
    0x0015_7293,
    0x0002_8463,
    0x0013_0313,
    0x0000_8067,
    0,
];

/// LW and SW of a word, four times, and JAL: 8 of 9 instructions are accesses.
const ACCESSES: [u32; 11] = [
    0x0010_04b7,
    0x0004_a083,
    0x0014_a223,
    0x0084_a103,
    0x0024_a623,
    0x0104_a183,
    0x0034_aa23,
    0x0184_a203,
    0x0044_ae23,
    0xfe1f_f06f,
    0,
];

/// How the steps are taken.
#[derive(Clone, Copy)]
enum How {
    /// By `advance`.
    Advance,
    /// One by one.
    Plain,
    /// One by one, with what they touch noted.
    Noted,
}

fn main(rt: HostRuntime) -> anyhow::Result<()> {
    let alloc = rt.alloc();
    let mut words = env::args(&rt)?;
    words.next();
    let (Some(name), Some(steps)) = (words.next(), words.next()) else {
        println!(rt; "machine_bench arithmetic|memory|calls|accesses STEPS [plain|noted]")?;
        return Ok(());
    };
    let steps: u64 = steps.as_str().parse()?;
    let how = match words.next() {
        Some(word) if word.as_str() == "plain" => How::Plain,
        Some(word) if word.as_str() == "noted" => How::Noted,
        _ => How::Advance,
    };
    let code = match name.as_str() {
        "memory" => MEMORY,
        "calls" => CALLS,
        "accesses" => ACCESSES,
        _ => ARITHMETIC,
    };
    let taken = run(alloc, &code, steps, how).unwrap_or(0);
    println!(rt; "{name} {taken}")?;
    Ok(())
}

/// All pages below the stack are checked.
const CHECKED: Classes = Classes {
    checked_from: 0,
    private_from: STACK_PAGE,
    private_to: STACK_PAGE,
};

/// Runs code for so many steps. Answers how many it took.
fn run(alloc: Global, code: &[u32; 11], steps: u64, how: How) -> Option<u64> {
    let program = Program {
        code: Words::of(Vec::from_slice(alloc, code).ok()?),
        bytes: Bytes::of(Vec::new(alloc)),
        classes: CHECKED,
        entry: CODE_FROM,
        ends: [0; 256],
    };
    let job = Job::of(program, Bytes::of(Vec::new(alloc)), BUDGET_LIMIT, 1);
    let mut state = State::start(alloc, &job).ok()?;
    match how {
        How::Advance => {
            advance(&job, &mut state, steps.min(BUDGET_LIMIT), &mut Piece::new());
            Some(state.count)
        }
        How::Plain => {
            for _ in 0..steps {
                step_plain(&job, &mut state.cpu, &mut state.image);
            }
            Some(steps)
        }
        How::Noted => {
            let mut log = Log::new(alloc, CHECKED).ok()?;
            for _ in 0..steps {
                step(&job, &mut state.cpu, &mut state.image, &mut log);
            }
            Some(steps)
        }
    }
}
