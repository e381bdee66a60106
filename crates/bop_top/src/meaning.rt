//! What a text means, and its output on the way to the sink.

ghost use Rattle.std.specs.Prelude.{◌≡◌, ◌≤◌, ℕ, List, Some, ⊤, length, IfOk, OnOk, OnErr, IfErr};
ghost use Rattle.std.specs.Io.KnownBytes.{Appends, Consumes};
ghost use Rattle.byte_lists.specs.Content.{AppendsPrefix};
ghost use Rattle.bop_ends.specs.Ends.{HasCause};
ghost use Rattle.bop_words.specs.WordRequests.{Mean};
ghost use Rattle.c_meaning.specs.Answer.{meaning_of};
ghost use Rattle.c_semantics.specs.Outcome.{output_of};
ghost use Rattle.bop_top.specs.CommandFaults.{Counts};
ghost use Rattle.bop_top.specs.CommandTransfers.{bytes_alone};
ghost use Rattle.bop_top.specs.Headline.{HasDone};
ghost use Rattle.bop_top.specs.MeanSays.{Means, meaning_outcome};
ghost use Rattle.bop_top.specs.TextSays.{IsInput, IsUnready};
ghost use Rattle.bop_top.specs.private.PutMeaning.{HasPut};
ghost use Rattle.c_token.specs.declared.limits.TheConstants.{TEXT_BYTES};

use crate::ending::{Ending, Figures};
use crate::input::read_input;
use crate::outcome::{Outcome, outcome_of};
use bop_ends::{Failed, Sink, Source};
use c_meaning::{Meant, evaluate};
use c_tree::OutOfMemory;
use low_link::source;
use std::alloc::Global;

/// Evaluates a text with the input within so many steps, and hands its output to the sink.
pub fn mean_text<S: Source, K: Sink>(
    alloc: Global,
    text: &[u8],
    steps: u64,
    input: &mut S,
    output: &mut K,
) -> Ending
    requires { length text.now ≤ TEXT_BYTES }
    ensures done { (name : List ℕ) → HasDone (Mean name steps) ⊤ (Some text.now) result.outcome
        result.told (S.left input.old) (S.left input.new) (K.content output.old)
        (K.content output.new) }
    ensures counts { (h : ℕ) → Counts result.outcome
        (record { shelf = h; input = S.faults input.old; output = K.faults output.old })
        (record { shelf = h; input = S.faults input.new; output = K.faults output.new }) }
{
    match meaning(alloc, text, steps, input) {
        Ok(meant) => put_meaning(&meant, output),
        Err(outcome) => Ending::of(outcome),
    }
}

/// What a text means with the input within so many steps.
fn meaning<S: Source>(
    alloc: Global,
    text: &[u8],
    steps: u64,
    input: &mut S,
) -> Result<Meant, Outcome>
    requires { length text.now ≤ TEXT_BYTES }
    ensures meant { IfOk result
        (λ answer. (taken : List ℕ) × Consumes (S.left input.old) (S.left input.new) taken
        × Means text.now taken steps (λ m. m ≡ meaning_of answer)
        × IsInput taken (S.left input.new)) }
    ensures refused { IfErr result
        (λ outcome. (taken : List ℕ) × Consumes (S.left input.old) (S.left input.new) taken
        × IsUnready outcome text.now taken) }
    ensures kept { OnOk result (S.faults input.new ≡ S.faults input.old) }
    ensures counts { IfErr result (λ outcome. (h o : ℕ) → Counts outcome
        (record { shelf = h; input = S.faults input.old; output = o })
        (record { shelf = h; input = S.faults input.new; output = o })) }
{
    let (checked, layout) = match source(alloc, text) {
        Ok(parts) => parts,
        Err(refused) => return Err(outcome_of(refused)),
    };
    let bytes = read_input(alloc, input)?;
    match evaluate(alloc, &checked, &layout, &bytes, steps) {
        Ok(meant) => Ok(meant),
        Err(OutOfMemory) => Err(Outcome::OutOfMemory),
    }
}

/// Hands the output of a meaning to the sink.
fn put_meaning<K: Sink>(meant: &Meant, output: &mut K) -> Ending
    ensures put { HasPut (meaning_of meant.now) result.outcome result.told (K.content output.old)
        (K.content output.new) }
    ensures counts { (h i : ℕ) → Counts result.outcome
        (record { shelf = h; input = i; output = K.faults output.old })
        (record { shelf = h; input = i; output = K.faults output.new }) }
{
    let bytes = bytes_of(meant);
    match put_whole(bytes, output) {
        Ok(()) => Ending {
            outcome: outcome_of_meaning(meant),
            told: Figures::of_bytes(bytes.len() as u64),
        },
        Err(Failed) => Ending {
            outcome: Outcome::WriteFault,
            told: Figures::of_bytes(0),
        },
    }
}

/// What a meaning puts out.
fn bytes_of(meant: &Meant) -> &[u8]
    ensures { result.now ≡ output_of (meaning_of meant.now) }
{
    match meant {
        Meant::Done(output, _) => output.get(),
        Meant::StackFull(output) => output.get(),
        Meant::More(output) => output.get(),
        Meant::Undefined(output, _, _) => output.get(),
    }
}

/// How a command ends whose text has this meaning.
fn outcome_of_meaning(meant: &Meant) -> Outcome
    ensures { result ≡ meaning_outcome (meaning_of meant.now) }
{
    match meant {
        Meant::Done(_, exit) => Outcome::Done(*exit),
        Meant::StackFull(_) => Outcome::StackFull,
        Meant::More(_) => Outcome::MoreSteps,
        Meant::Undefined(_, act, at) => Outcome::Undefined(*act, *at),
    }
}

/// Hands all the bytes to the sink at once, where there are any.
fn put_whole<K: Sink>(bytes: &[u8], output: &mut K) -> Result<(), Failed>
    ensures whole { OnOk result (Appends (K.content output.old) (K.content output.new) bytes.now) }
    ensures part { OnErr result
        (AppendsPrefix (K.content output.old) (K.content output.new) bytes.now) }
    ensures cause { HasCause (K.faults output.old) (K.faults output.new) result }
{
    if bytes.is_empty() {
        return Ok(());
    }
    output.append(bytes)
}
