//! A text's program, run on the sequential machine.

ghost use Rattle.std.specs.Prelude.{◌≡◌, ◌≤◌, ℕ, List, Some, ⊤, length, IfOk, OnOk, IfErr};
ghost use Rattle.std.specs.Io.KnownBytes.{Consumes};
ghost use Rattle.c_token.specs.declared.limits.TheConstants.{TEXT_BYTES};
ghost use Rattle.bop_ends.specs.Ends.{HasCause};
ghost use Rattle.bop_words.specs.RequestBounds.{IsBudget};
ghost use Rattle.bop_words.specs.WordRequests.{Seq};
ghost use Rattle.bop_top.specs.CommandFaults.{Counts};
ghost use Rattle.bop_top.specs.Headline.{HasDone};
ghost use Rattle.bop_top.specs.SeqSays.{run_outcome, stop_outcome};
ghost use Rattle.bop_top.specs.TextSays.{IsInput, IsUnready};
ghost use Rattle.bop_top.specs.private.Prepared.{IsJobOf};

use crate::ending::{Ending, Figures};
use crate::input::read_input;
use crate::outcome::{Outcome, outcome_of};
use crate::run::run;
use bop_ends::{Failed, Sink, Source};
use low_link::compile;
use rv_code::{Bytes, Stop};
use rv_step::{Job, State};
use std::alloc::Global;

/// Compiles a text and runs its program with the input within so many steps.
pub(crate) fn seq_text<S: Source, K: Sink>(
    alloc: Global,
    text: &[u8],
    budget: u64,
    input: &mut S,
    output: &mut K,
) -> Ending
    requires text { length text.now ≤ TEXT_BYTES }
    requires budget { IsBudget budget }
    ensures done { (name : List ℕ) → HasDone (Seq name budget) ⊤ (Some text.now) result.outcome
        result.told (S.left input.old) (S.left input.new) (K.content output.old)
        (K.content output.new) }
    ensures counts { (h : ℕ) → Counts result.outcome
        (record { shelf = h; input = S.faults input.old; output = K.faults output.old })
        (record { shelf = h; input = S.faults input.new; output = K.faults output.new }) }
{
    let job = match prepared(alloc, text, budget, input) {
        Ok(job) => job,
        Err(outcome) => return Ending::of(outcome),
    };
    let Ok(mut state) = State::start(alloc, &job) else {
        return Ending::of(Outcome::OutOfMemory);
    };
    let ran = run(&job, &mut state, output);
    Ending {
        outcome: outcome_of_run(ran.end, state.stop),
        told: Figures::of_run(state.count, ran.bytes),
    }
}

/// The job of a text's program on the input.
fn prepared<S: Source>(
    alloc: Global,
    text: &[u8],
    budget: u64,
    input: &mut S,
) -> Result<Job, Outcome>
    requires text { length text.now ≤ TEXT_BYTES }
    requires budget { IsBudget budget }
    ensures job { IfOk result
        (λ job. (taken : List ℕ) × Consumes (S.left input.old) (S.left input.new) taken
        × IsJobOf text.now taken budget job × IsInput taken (S.left input.new)) }
    ensures refused { IfErr result
        (λ outcome. (taken : List ℕ) × Consumes (S.left input.old) (S.left input.new) taken
        × IsUnready outcome text.now taken) }
    ensures kept { OnOk result (S.faults input.new ≡ S.faults input.old) }
    ensures counts { IfErr result (λ outcome. (h o : ℕ) → Counts outcome
        (record { shelf = h; input = S.faults input.old; output = o })
        (record { shelf = h; input = S.faults input.new; output = o })) }
{
    let program = match compile(alloc, text) {
        Ok(program) => program,
        Err(refused) => return Err(outcome_of(refused)),
    };
    let bytes = read_input(alloc, input)?;
    Ok(Job::of(program, Bytes::of(bytes), budget, 1))
}

/// How a run ends whose output has failed or not, and whose machine has stopped so or not.
fn outcome_of_run(end: Result<(), Failed>, stop: Option<Stop>) -> Outcome
    ensures outcome { result ≡ run_outcome end stop }
    ensures counts { (h i before now : ℕ) → HasCause before now end → Counts result
        (record { shelf = h; input = i; output = before })
        (record { shelf = h; input = i; output = now }) }
{
    match end {
        Ok(()) => outcome_of_stop(stop),
        Err(Failed) => Outcome::WriteFault,
    }
}

/// How a run ends whose machine has stopped so, or not.
fn outcome_of_stop(stop: Option<Stop>) -> Outcome
    ensures { result ≡ stop_outcome stop }
{
    match stop {
        None => Outcome::Budget,
        Some(Stop::Exit(exit)) => Outcome::Done(exit),
        Some(Stop::StackFull) => Outcome::StackFull,
        Some(Stop::Trap(trap, pc)) => Outcome::Trapped(trap, pc),
    }
}
