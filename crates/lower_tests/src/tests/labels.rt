//! Code with labels, run on the machine.

ghost use Rattle.std.specs.Prelude.{◌≡◌, length, OnOk};

use bop_bits::{CODE_FROM, CODE_WORDS, Classes};
use low_labels::{Asm, AsmFault, Test};
use rv_code::{Bytes, Instr, Program, Words};
use rv_run::{Paused, Piece, advance};
use rv_step::{Job, State, Stop, Trap};
use std::alloc::Global;
use std::test::Fail;

/// Adds instructions that do nothing.
fn idle(asm: &mut Asm, n: usize) -> Result<(), AsmFault>
    ensures { OnOk result (length asm.new.places ≡ length asm.old.places) }
{
    for _ in 0..n {
        asm.op(Instr::Addi {
            rd: 0,
            rs1: 0,
            imm: 0,
        })?;
    }
    Ok(())
}

/// Where code stops at EBREAK, and after how many steps.
fn stop_of(alloc: Global, code: Vec<u32>) -> Option<(u32, u64)> {
    if code.len() > CODE_WORDS {
        return None;
    }
    let program = Program {
        code: Words::of(code),
        bytes: Bytes::of(Vec::new(alloc)),
        classes: Classes {
            checked_from: 0,
            private_from: 0,
            private_to: 0,
        },
        entry: CODE_FROM,
        ends: [0; 256],
    };
    let job = Job::of(program, Bytes::of(Vec::new(alloc)), 1_000_000, 1);
    let mut state = State::start(alloc, &job).ok()?;
    let mut piece = Piece::new();
    if advance(&job, &mut state, 1_000_000, &mut piece) != Paused::Stopped {
        return None;
    }
    match state.stop {
        Some(Stop::Trap(Trap::Break, pc)) => Some((pc, state.count)),
        _ => None,
    }
}

/// A jump to a label far behind, where a branch leads back to the second word.
fn there_and_back(alloc: Global, between: usize) -> Result<Vec<u32>, AsmFault> {
    let mut asm = Asm::new(alloc);
    let back = asm.label()?;
    let far = asm.label()?;
    asm.jump(0, far)?;
    asm.place(back);
    asm.op(Instr::Ebreak)?;
    idle(&mut asm, between)?;
    asm.place(far);
    asm.branch(Test::Eq, 0, 0, back)?;
    asm.close()
}

/// A branch to a label far behind, where a jump leads back to the third word.
fn there_by_a_branch(alloc: Global, between: usize) -> Result<Vec<u32>, AsmFault> {
    let mut asm = Asm::new(alloc);
    let back = asm.label()?;
    let far = asm.label()?;
    asm.branch(Test::GeU, 0, 0, far)?;
    asm.place(back);
    asm.op(Instr::Ebreak)?;
    idle(&mut asm, between)?;
    asm.place(far);
    asm.jump(0, back)?;
    asm.close()
}

/// A jump is one step, and a branch that is taken two.
#[test]
fn jumps_and_branches_reach_their_labels(rt: HostRuntime) -> Result<(), Fail> {
    let alloc = rt.alloc();
    for between in [0, 1, 1_024, 245_000] {
        let code = there_and_back(alloc, between).ok().ok_or("no code")?;
        assert_eq!(rt; stop_of(alloc, code), Some((0x1_0004, 4)));
        let code = there_by_a_branch(alloc, between).ok().ok_or("no code")?;
        assert_eq!(rt; stop_of(alloc, code), Some((0x1_0008, 4)));
    }
    Ok(())
}

/// A branch whose test fails is one step, and goes on behind its two words.
#[test]
fn a_branch_goes_on_where_its_test_fails(rt: HostRuntime) -> Result<(), Fail> {
    let alloc = rt.alloc();
    for test in [Test::Ne, Test::Lt, Test::LtU] {
        let mut asm = Asm::new(alloc);
        let far = asm.label().ok().ok_or("no memory")?;
        asm.branch(test, 0, 0, far).ok().ok_or("no memory")?;
        asm.op(Instr::Ebreak).ok().ok_or("no memory")?;
        asm.place(far);
        let code = asm.close().ok().ok_or("no memory")?;
        assert_eq!(rt; stop_of(alloc, code), Some((0x1_0008, 2)));
    }
    Ok(())
}

/// The code has 245,760 words at most, and what is refused adds nothing.
#[test]
fn one_word_more_is_too_long(rt: HostRuntime) -> Result<(), Fail> {
    let alloc = rt.alloc();
    let mut asm = Asm::new(alloc);
    let label = asm.label().ok().ok_or("no memory")?;
    idle(&mut asm, 245_759).ok().ok_or("no memory")?;
    assert_eq!(rt; asm.here(), 0x000f_fffc);
    assert_eq!(rt;
        asm.branch(Test::Eq, 1, 2, label),
        Err(AsmFault::CodeTooLong)
    );
    assert_eq!(rt; asm.here(), 0x000f_fffc);
    assert_eq!(rt; asm.jump(1, label), Ok(()));
    assert_eq!(rt; asm.op(Instr::Ecall), Err(AsmFault::CodeTooLong));
    assert_eq!(rt; asm.jump(1, label), Err(AsmFault::CodeTooLong));
    assert_eq!(rt; asm.here(), 0x0010_0000);
    let code = asm.close().ok().ok_or("no memory")?;
    assert_eq!(rt; code.len(), 245_760);
    Ok(())
}
