//! Traps and calls.

use crate::tests::jobs::{blank, job_of};
use ppr_regions::Event;
use rv_step::{Stepped, Stop, Trap, step_plain};
use std::test::Fail;

/// Name, word, value of x1, trap. The instruction is at 0x10000, and its trap names that pc.
#[test]
fn each_trap_has_its_pc(rt: HostRuntime) -> Result<(), Fail> {
    let alloc = rt.alloc();
    let rows: [(&str, u32, u32, Trap); 18] = [
        ("no instruction", 0, 0, Trap::Illegal),
        ("EBREAK", 0x0010_0073, 0, Trap::Break),
        ("LW below the data", 0x0000_a183, 0xf_fffc, Trap::Load),
        ("LW behind the stack", 0x0000_a183, 0x40_0000, Trap::Load),
        ("LB behind the stack", 0x0000_8183, 0x40_0000, Trap::Load),
        ("LW of 2 behind 4", 0x0000_a183, 0x10_0002, Trap::LoadAlign),
        ("LH of 1 behind 2", 0x0000_9183, 0x10_0001, Trap::LoadAlign),
        (
            "LW misaligned and far",
            0x0000_a183,
            0x40_0001,
            Trap::LoadAlign,
        ),
        ("SW below the data", 0x0000_a023, 0xf_fffc, Trap::Store),
        ("SW into the code", 0x0000_a023, 0x1_0000, Trap::Store),
        ("SB behind the stack", 0x0000_8023, 0x40_0000, Trap::Store),
        ("SW of 2 behind 4", 0x0000_a023, 0x10_0002, Trap::StoreAlign),
        ("SH of 1 behind 2", 0x0000_9023, 0x10_0001, Trap::StoreAlign),
        (
            "SH misaligned and far",
            0x0000_9023,
            0x40_0001,
            Trap::StoreAlign,
        ),
        ("JAL x3, +2", 0x0020_01ef, 0, Trap::JumpAlign),
        ("JALR x3, 0(x1)", 0x0000_81e7, 0x1_0006, Trap::JumpAlign),
        ("BEQ x0, x0, +2", 0x0000_0163, 0, Trap::JumpAlign),
        ("ECALL with a7 = 8", 0x0000_0073, 8, Trap::Call),
    ];
    let mut state = blank(alloc).ok_or("no memory")?;
    for (name, word, a, trap) in rows {
        let job = job_of(alloc, &[word], &[]).ok_or("no memory")?;
        state.cpu.pc = 0x1_0000;
        state.cpu.x[1] = a;
        state.cpu.x[17] = a;
        let before = state.cpu;
        let answer = step_plain(&job, &mut state.cpu, &mut state.image);
        let stop = Stop::Trap(trap, 0x1_0000);
        assert_eq!(rt; answer, Stepped::Ended(stop), "{}", name);
        assert_eq!(rt; state.cpu, before, "{}", name);
    }
    Ok(())
}

/// A pc outside the program's own words, or no multiple of 4.
#[test]
fn a_pc_outside_the_code_traps(rt: HostRuntime) -> Result<(), Fail> {
    let alloc = rt.alloc();
    let mut state = blank(alloc).ok_or("no memory")?;
    for pc in [0, 0xfffc, 0x1_0002, 0x1_0004, 0x10_0000, u32::MAX] {
        let job = job_of(alloc, &[0x0000_0013], &[]).ok_or("no memory")?;
        state.cpu.pc = pc;
        let answer = step_plain(&job, &mut state.cpu, &mut state.image);
        let stop = Stop::Trap(Trap::Fetch, pc);
        assert_eq!(rt; answer, Stepped::Ended(stop), "{}", pc);
    }
    Ok(())
}

/// The number of the call, what it answers, a0 afterwards. Before it a0, a1, a2 are 0x181, 9, 8.
#[test]
fn calls_are_answered(rt: HostRuntime) -> Result<(), Fail> {
    let alloc = rt.alloc();
    let post = Event::Post {
        channel: 0x181,
        at: 9,
        len: 8,
    };
    let rows = [
        (0, Stepped::Ended(Stop::Exit(0x181)), 0x181),
        (1, Stepped::Plain, 200),
        (2, Stepped::Put(0x81), 0x81),
        (3, Stepped::Marked(Event::Begin(0x181)), 0x181),
        (4, Stepped::Marked(Event::End(0x181)), 0x181),
        (5, Stepped::Marked(post), 0x181),
        (6, Stepped::Marked(Event::Wait { channel: 0x181 }), 0x181),
        (7, Stepped::Ended(Stop::StackFull), 0x181),
    ];
    let mut state = blank(alloc).ok_or("no memory")?;
    for (number, said, a0) in rows {
        let job = job_of(alloc, &[0x0000_0073], &[200]).ok_or("no memory")?;
        state.cpu.pc = 0x1_0000;
        state.cpu.cursor = 0;
        state.cpu.x[10] = 0x181;
        state.cpu.x[11] = 9;
        state.cpu.x[12] = 8;
        state.cpu.x[17] = number;
        let answer = step_plain(&job, &mut state.cpu, &mut state.image);
        assert_eq!(rt; answer, said, "call {}", number);
        let after = state.cpu.x[10];
        assert_eq!(rt; after, a0, "call {}", number);
    }
    Ok(())
}

/// getchar gives the input's bytes, and then -1 as often as it is called.
#[test]
fn the_input_is_read_once(rt: HostRuntime) -> Result<(), Fail> {
    let alloc = rt.alloc();
    let job = job_of(alloc, &[0x0000_0073], &[0, 255]).ok_or("no memory")?;
    let mut state = blank(alloc).ok_or("no memory")?;
    state.cpu.x[17] = 1;
    for (a0, cursor) in [(0, 1), (255, 2), (u32::MAX, 2), (u32::MAX, 2)] {
        state.cpu.pc = 0x1_0000;
        let answer = step_plain(&job, &mut state.cpu, &mut state.image);
        assert_eq!(rt; answer, Stepped::Plain);
        let read = state.cpu.x[10];
        let at = state.cpu.cursor;
        assert_eq!(rt; (read, at), (a0, cursor));
    }
    Ok(())
}
