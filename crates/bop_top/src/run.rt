//! A run in place, whose bytes go to a sink piece by piece.

ghost use Rattle.std.specs.Prelude.{◌≡◌, ◌≤◌, [], true, length, IfOk, OnOk, OnErr};
ghost use Rattle.std.specs.Io.KnownBytes.{Appends};
ghost use Rattle.byte_lists.specs.Content.{AppendsPrefix};
ghost use Rattle.bop_ends.specs.Ends.{HasCause};
ghost use Rattle.rv_code.specs.State.{Running, start};
ghost use Rattle.rv_run.specs.declared.piece.TheConstants.{PIECE_BYTES};
ghost use Rattle.rv_step.specs.InPlace.{machine_of};
ghost use Rattle.bop_top.specs.private.RunEnds.{HasPassed};

use bop_ends::{Failed, Sink};
use rv_run::{Paused, Piece, advance};
use rv_step::{Job, State};

/// What has become of a run.
#[derive(Clone, Copy, Debug)]
pub(crate) struct RunResult {
    /// Whether the output has failed before the run was over.
    pub(crate) end: Result<(), Failed>,
    /// How many bytes were written by the appends that haven't failed.
    pub(crate) bytes: u64,
}

/// Runs a job from its start until it stops or has made all its steps, or the sink fails.
pub(crate) fn run<K: Sink>(job: &Job, state: &mut State, sink: &mut K) -> RunResult
    requires start { machine_of state.old [] ≡ Running (start job.now.program) }
    requires owned { state.old.image.owned ≡ true }
    ensures passed { HasPassed job.now.program job.now.input job.now.budget state.new result
        (K.content sink.old) (K.content sink.new) }
    ensures cause { HasCause (K.faults sink.old) (K.faults sink.new) result.end }
{
    let mut piece = Piece::new();
    let mut bytes = 0;
    loop {
        let left = job.budget - state.count;
        let paused = advance(job, state, left, &mut piece);
        let Ok(count) = flush(&mut piece, sink) else {
            return RunResult {
                end: Err(Failed),
                bytes,
            };
        };
        bytes += count;
        match paused {
            Paused::Full => {}
            _ => return RunResult { end: Ok(()), bytes },
        }
    }
}

/// Hands the piece to the sink, and answers how many bytes it had.
fn flush<K: Sink>(piece: &mut Piece, sink: &mut K) -> Result<u64, Failed>
    ensures empty { OnOk result (piece.new ≡ []) }
    ensures count { IfOk result (λ count. count ≡ length piece.old) }
    ensures most { IfOk result (λ count. count ≤ PIECE_BYTES) }
    ensures moved { OnOk result (Appends (K.content sink.old) (K.content sink.new) piece.old) }
    ensures part { OnErr result
        (AppendsPrefix (K.content sink.old) (K.content sink.new) piece.old) }
    ensures cause { HasCause (K.faults sink.old) (K.faults sink.new) result }
{
    let count = piece.bytes().len() as u64;
    sink.append(piece.bytes())?;
    piece.clear();
    Ok(count)
}
