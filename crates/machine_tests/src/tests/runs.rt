//! Runs in place.

use crate::tests::jobs::{blank, job_of};
use bop_bits::CODE_FROM;
use rv_run::{Paused, Piece, advance};
use rv_step::{Job, State, Stop, Trap};
use std::test::Fail;

/// Takes `n` steps, where the piece has room and the job's budget allows them.
fn steps(job: &Job, state: &mut State, n: u64, piece: &mut Piece) -> Option<Paused> {
    let left = job.budget.checked_sub(state.count)?;
    if piece.is_full() || !state.image.is_owned() || left < n {
        return None;
    }
    Some(advance(job, state, n, piece))
}

/// LUI x5, 0x12345, and EBREAK.
#[test]
fn a_run_stops_at_ebreak(rt: HostRuntime) -> Result<(), Fail> {
    let alloc = rt.alloc();
    let job = job_of(alloc, &[0x1234_52b7, 0x0010_0073], &[]).ok_or("no memory")?;
    let mut state = blank(alloc).ok_or("no memory")?;
    state.cpu.pc = CODE_FROM;
    let mut piece = Piece::new();
    assert_eq!(rt; steps(&job, &mut state, 1, &mut piece), Some(Paused::Took));
    assert_eq!(rt;
        steps(&job, &mut state, 100, &mut piece),
        Some(Paused::Stopped)
    );
    assert_eq!(rt; state.stop, Some(Stop::Trap(Trap::Break, 0x1_0004)));
    assert_eq!(rt; state.count, 2);
    assert_eq!(rt;
        steps(&job, &mut state, 100, &mut piece),
        Some(Paused::Stopped)
    );
    assert_eq!(rt; state.count, 2);
    assert!(rt; piece.bytes().is_empty());
    Ok(())
}

/// ADDI x17, x0, 2; ADDI x10, x0, 'x'; ECALL; JAL x0, -4: each second step behind the first three
/// puts a byte, which makes 10,000 of 20,001 steps.
#[test]
fn ten_thousand_bytes_come_in_pieces(rt: HostRuntime) -> Result<(), Fail> {
    let alloc = rt.alloc();
    let code = [0x0020_0893, 0x0780_0513, 0x0000_0073, 0xffdf_f06f];
    let job = job_of(alloc, &code, &[]).ok_or("no memory")?;
    let mut state = blank(alloc).ok_or("no memory")?;
    state.cpu.pc = CODE_FROM;
    let mut piece = Piece::new();
    for (paused, count, len) in [
        (Paused::Full, 8_193, 4_096),
        (Paused::Full, 16_385, 4_096),
        (Paused::Took, 20_001, 1_808),
    ] {
        let left = 20_001u64.saturating_sub(state.count);
        assert_eq!(rt; steps(&job, &mut state, left, &mut piece), Some(paused));
        assert_eq!(rt; state.count, count);
        assert_eq!(rt; piece.bytes().len(), len);
        assert!(rt; piece.bytes().iter().all(|byte| *byte == b'x'));
        piece.clear();
    }
    Ok(())
}
