//! Steps in place.

ghost use Rattle.std.specs.Prelude.{◌≡◌, ◌<◌, ◌≤◌, ◌+◌, ◌-◌, ◌^◌, ◌++◌, List, ℕ, length, true, None};
ghost use Rattle.rv_code.specs.SequentialRun.{run};
ghost use Rattle.rv_code.specs.Step.{step};
ghost use Rattle.rv_run.specs.Pause.{pause_of, answer_of};
ghost use Rattle.rv_step.specs.InPlace.{machine_of};
ghost use Rattle.rv_run.specs.declared.piece.TheConstants.{PIECE_BYTES};
ghost use Rattle.rv_run.specs.declared.run.Paused.TheVariants as Paused;

use crate::piece::Piece;
use rv_step::{Job, State, Stepped, step_plain};

/// Why a run pauses.
#[derive(Clone, Copy, Debug, PartialEq, Eq)]
pub enum Paused {
    /// It has taken all its steps.
    Took,
    /// The piece is full.
    Full,
    /// The machine has stopped.
    Stopped,
}

/// Takes `n` steps of a job, fewer where the machine stops or the piece is full. What it puts out
/// goes to the piece. It takes no memory.
pub fn advance(job: &Job, state: &mut State, n: u64, out: &mut Piece) -> Paused
    requires room { length out.old < PIECE_BYTES }
    requires owned { state.old.image.owned ≡ true }
    requires within { state.old.count + n ≤ job.now.budget }
    ensures run { (before : List ℕ)
        → run job.now.program.code job.now.input (state.new.count - state.old.count)
        (machine_of state.old (before ++ out.old)) ≡ machine_of state.new (before ++ out.new) }
    ensures answer { result ≡ answer_of (pause_of state.new.stop out.new) }
    ensures took { result ≡ Paused.Took → state.new.count ≡ state.old.count + n }
    ensures moved { result ≡ Paused.Full → state.old.count < state.new.count }
    ensures least { state.old.count ≤ state.new.count }
    ensures most { state.new.count ≤ state.old.count + n }
    ensures kept { state.new.image.owned ≡ true }
{
    if state.stop.is_some() {
        return Paused::Stopped;
    }
    let end = state.count + n;
    while state.count < end {
        if let Some(why) = turn(job, state, out) {
            return why;
        }
    }
    Paused::Took
}

/// Takes a step, and answers why the run pauses, if it does.
fn turn(job: &Job, state: &mut State, out: &mut Piece) -> Option<Paused>
    requires going { state.old.stop ≡ None }
    requires low { state.old.count < 2 ^ 63 }
    requires room { length out.old < PIECE_BYTES }
    requires owned { state.old.image.owned ≡ true }
    ensures step { (before : List ℕ)
        → step job.now.program.code job.now.input (machine_of state.old (before ++ out.old))
        ≡ machine_of state.new (before ++ out.new) }
    ensures answer { result ≡ pause_of state.new.stop out.new }
    ensures count { state.new.count ≡ state.old.count + 1 }
    ensures most { length out.new ≤ PIECE_BYTES }
    ensures kept { state.new.image.owned ≡ true }
{
    let answer = step_plain(job, &mut state.cpu, &mut state.image);
    state.count += 1;
    match answer {
        Stepped::Plain | Stepped::Marked(_) => None,
        Stepped::Put(byte) => {
            out.push(byte);
            if out.is_full() {
                Some(Paused::Full)
            } else {
                None
            }
        }
        Stepped::Ended(how) => {
            state.stop = Some(how);
            Some(Paused::Stopped)
        }
        Stepped::NoMemory => unreachable!(),
    }
}
