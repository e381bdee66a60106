//! The top call.

ghost use Rattle.std.specs.Prelude.{◌≡◌, ◌≢◌, ◌↔◌, ◌≤◌, length, IfOk, OnOk, IfErr, List, ℕ, ⊤, None, Some, map, string_bytes, IsTrue, Option};
ghost use Rattle.c_token.specs.declared.limits.TheConstants.{TEXT_BYTES};
ghost use Rattle.bop_words.specs.RequestBounds.{HasBounds, IsBudget};
ghost use Rattle.bop_words.specs.WordRequests.{Check, Mean, Seq, AskNothing, request_of};
ghost use Rattle.bop_words.specs.declared.request.Request.TheVariants.{Plain};
ghost use Rattle.bop_top.specs.BuiltCommands.{AsksInput, ReadsInput};
ghost use Rattle.bop_top.specs.CommandFaults.{Counts};
ghost use Rattle.bop_top.specs.CommandTransfers.{no_figures};
ghost use Rattle.bop_top.specs.Headline.{Course, Ended, HasDone, Serves, ends_of};
ghost use Rattle.bop_top.specs.Report.{Reported};
ghost use Rattle.bop_top.specs.TextSays.{IsUnloaded};
ghost use Rattle.bop_top.specs.private.Untouched.{Untouched};
ghost use Rattle.bop_top.specs.declared.status.Status.TheVariants.{BadWords};

use crate::Status;
use crate::ending::{Ending, Figures};
use crate::meaning::mean_text;
use crate::outcome::{Outcome, outcome_of};
use crate::report::report_status;
use crate::sequential::seq_text;
use bop_ends::{LoadFault, Shelf, Sink, Source};
use bop_words::{PlainRequest, Request, WordFault, read_words};
use c_token::TEXT_BYTES;
use low_link::source;
use std::alloc::Global;

/// How many bytes of a program's file are loaded at most: one more, so that a longer text is told.
pub const MOST_BYTES: usize = 1_048_577;

/// Does what the words ask for, reports how that has ended, and hands the output back.
///
/// The words are those behind the program's name. `run` and `demo` aren't built yet; what the other
/// commands do is said at `bop_plain`.
pub fn bop_main<S: Source, K: Sink, R: Sink, H: Shelf>(
    alloc: Global,
    words: &[String],
    shelf: &mut H,
    input: &mut S,
    output: K,
    report: &mut R,
) -> (Status, K)
    ensures course { Course (map string_bytes words.now)
        (ends_of H.tells H.file H.faults S.left S.faults K.content K.faults
        shelf.old input.old output)
        (ends_of H.tells H.file H.faults S.left S.faults K.content K.faults
        shelf.new input.new result.1)
        (record { content = R.content report.old; faults = R.faults report.old })
        (record { content = R.content report.new; faults = R.faults report.new })
        result.0 }
    ensures bad_words { (result.0 ≡ BadWords) ↔ AskNothing (map string_bytes words.now) }
    ensures unread { (AsksInput (map string_bytes words.now) → ⊥) → input.new ≡ input.old }
    ensures tells { H.tells shelf.new ≡ H.tells shelf.old }
    ensures files { H.file shelf.new ≡ H.file shelf.old }
{
    match read_words(alloc, words) {
        Ok(Request::Plain(request)) => { bop_plain(alloc, &request, shelf, input, output, report) }
        Ok(Request::Race(_)) => told(Status::NotYetBuilt, output, report),
        Err(WordFault::BadWords) => told(Status::BadWords, output, report),
        Err(WordFault::OutOfMemory) => told(Status::OutOfMemory, output, report),
    }
}

/// Does what waits for nobody, reports how that has ended, and hands the output back.
///
/// `seq PROG` compiles the text in the file PROG and runs it on the machine with the input, `check
/// PROG` says whether it is a text that compiles, and `mean PROG` evaluates it with the input by the
/// definition of its meaning. What the program puts goes to the output, and the report has a line
/// about the status, for `seq` one about the steps, for `seq` and `mean` one about the bytes written.
/// `replay` and `source` aren't built yet.
pub fn bop_plain<S: Source, K: Sink, R: Sink, H: Shelf>(
    alloc: Global,
    request: &PlainRequest,
    shelf: &mut H,
    input: &mut S,
    output: K,
    report: &mut R,
) -> (Status, K)
    requires { HasBounds (request_of (Plain request.now)) }
    ensures serves { Serves (request_of (Plain request.now))
        (ends_of H.tells H.file H.faults S.left S.faults K.content K.faults
        shelf.old input.old output)
        (ends_of H.tells H.file H.faults S.left S.faults K.content K.faults
        shelf.new input.new result.1)
        (record { content = R.content report.old; faults = R.faults report.old })
        (record { content = R.content report.new; faults = R.faults report.new })
        result.0 }
    ensures right_words { result.0 ≢ BadWords }
    ensures unread { (ReadsInput (request_of (Plain request.now)) → ⊥) → input.new ≡ input.old }
    ensures tells { H.tells shelf.new ≡ H.tells shelf.old }
    ensures files { H.file shelf.new ≡ H.file shelf.old }
{
    let mut output = output;
    let ending = execute(alloc, request, shelf, input, &mut output);
    let inner = ending.outcome.status();
    (report_status(inner, ending.told, report), output)
}

/// Reports a call that has done nothing.
fn told<K, R: Sink>(inner: Status, output: K, report: &mut R) -> (Status, K)
    ensures reported { Reported inner result.0 no_figures (R.content report.old)
        (R.content report.new) (R.faults report.old) (R.faults report.new) }
    ensures output { result.1 ≡ output }
{
    (report_status(inner, Figures::none(), report), output)
}

/// Does what a request asks for.
fn execute<S: Source, K: Sink, H: Shelf>(
    alloc: Global,
    request: &PlainRequest,
    shelf: &mut H,
    input: &mut S,
    output: &mut K,
) -> Ending
    requires { HasBounds (request_of (Plain request.now)) }
    ensures ended { Ended (request_of (Plain request.now))
        (ends_of H.tells H.file H.faults S.left S.faults K.content K.faults
        shelf.old input.old output.old)
        (ends_of H.tells H.file H.faults S.left S.faults K.content K.faults
        shelf.new input.new output.new)
        result.outcome result.told }
    ensures unread { (ReadsInput (request_of (Plain request.now)) → ⊥) → input.new ≡ input.old }
    ensures untouched { Untouched H.tells H.file shelf.old shelf.new }
{
    match request {
        PlainRequest::Seq { program, budget } => {
            seq(alloc, program.as_str(), *budget, shelf, input, output)
        }
        PlainRequest::Check { program } => Ending::of(check(alloc, program.as_str(), shelf)),
        PlainRequest::Mean { program, budget } => {
            mean(alloc, program.as_str(), *budget, shelf, input, output)
        }
        PlainRequest::Replay { .. } | PlainRequest::Text { .. } => Ending::of(Outcome::NotYetBuilt),
    }
}

/// Loads a text.
fn load<H: Shelf>(alloc: Global, name: &str, shelf: &mut H) -> Result<Vec<u8>, Outcome>
    ensures text { IsTrue (H.tells shelf.old)
        → IfOk result (λ text. H.file shelf.old name.now ≡ Some text.items) }
    ensures fits { IfOk result (λ text. length text.items ≤ TEXT_BYTES) }
    ensures refused { IfErr result
        (λ outcome. IsUnloaded outcome (IsTrue (H.tells shelf.old)) (H.file shelf.old name.now)) }
    ensures loaded { OnOk result (H.faults shelf.new ≡ H.faults shelf.old) }
    ensures counts { IfErr result
        (λ outcome. (i o : ℕ) → Counts outcome
        (record { shelf = H.faults shelf.old; input = i; output = o })
        (record { shelf = H.faults shelf.new; input = i; output = o })) }
    ensures untouched { Untouched H.tells H.file shelf.old shelf.new }
{
    match shelf.load(alloc, name, MOST_BYTES) {
        Ok(text) if text.len() > TEXT_BYTES => Err(Outcome::ProgramTooLong),
        Ok(text) => Ok(text),
        Err(LoadFault::Failed) => Err(Outcome::LoadFault),
        Err(LoadFault::OutOfMemory) => Err(Outcome::OutOfMemory),
    }
}

/// Loads a program and runs it with the input.
fn seq<S: Source, K: Sink, H: Shelf>(
    alloc: Global,
    name: &str,
    budget: u64,
    shelf: &mut H,
    input: &mut S,
    output: &mut K,
) -> Ending
    requires { IsBudget budget }
    ensures done { HasDone (Seq name.now budget) (IsTrue (H.tells shelf.old))
        (H.file shelf.old name.now) result.outcome result.told
        (S.left input.old) (S.left input.new) (K.content output.old) (K.content output.new) }
    ensures counts { Counts result.outcome
        (record {
          shelf = H.faults shelf.old;
          input = S.faults input.old;
          output = K.faults output.old;
        })
        (record {
          shelf = H.faults shelf.new;
          input = S.faults input.new;
          output = K.faults output.new;
        }) }
    ensures untouched { Untouched H.tells H.file shelf.old shelf.new }
{
    match load(alloc, name, shelf) {
        Ok(text) => seq_text(alloc, &text, budget, input, output),
        Err(outcome) => Ending::of(outcome),
    }
}

/// Loads a program and checks it.
fn check<H: Shelf>(alloc: Global, name: &str, shelf: &mut H) -> Outcome
    ensures done { (left content : Option (List ℕ)) → HasDone (Check name.now)
        (IsTrue (H.tells shelf.old)) (H.file shelf.old name.now) result no_figures
        left left content content }
    ensures counts { (i o : ℕ)
        → Counts result (record { shelf = H.faults shelf.old; input = i; output = o })
        (record { shelf = H.faults shelf.new; input = i; output = o }) }
    ensures untouched { Untouched H.tells H.file shelf.old shelf.new }
{
    match load(alloc, name, shelf) {
        Ok(text) => check_text(alloc, &text),
        Err(outcome) => outcome,
    }
}

/// Loads a program and evaluates it with the input.
fn mean<S: Source, K: Sink, H: Shelf>(
    alloc: Global,
    name: &str,
    steps: u64,
    shelf: &mut H,
    input: &mut S,
    output: &mut K,
) -> Ending
    ensures done { HasDone (Mean name.now steps) (IsTrue (H.tells shelf.old))
        (H.file shelf.old name.now) result.outcome result.told
        (S.left input.old) (S.left input.new) (K.content output.old) (K.content output.new) }
    ensures counts { Counts result.outcome
        (record {
          shelf = H.faults shelf.old;
          input = S.faults input.old;
          output = K.faults output.old;
        })
        (record {
          shelf = H.faults shelf.new;
          input = S.faults input.new;
          output = K.faults output.new;
        }) }
    ensures untouched { Untouched H.tells H.file shelf.old shelf.new }
{
    match load(alloc, name, shelf) {
        Ok(text) => mean_text(alloc, &text, steps, input, output),
        Err(outcome) => Ending::of(outcome),
    }
}

/// Checks a text.
fn check_text(alloc: Global, text: &[u8]) -> Outcome
    requires { length text.now ≤ TEXT_BYTES }
    ensures done { (name : List ℕ) (left content : Option (List ℕ)) → HasDone (Check name) ⊤
        (Some text.now) result no_figures left left content content }
    ensures counts { (h i o : ℕ)
        → Counts result (record { shelf = h; input = i; output = o })
        (record { shelf = h; input = i; output = o }) }
{
    match source(alloc, text) {
        Ok(_) => Outcome::Fine,
        Err(refused) => outcome_of(refused),
    }
}
