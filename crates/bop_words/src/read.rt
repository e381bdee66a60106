//! The words, read.

ghost use Rattle.std.specs.Prelude.{◌≡◌, ◌↔◌, ◌∷◌, true, Err, IfOk, MatchOption, Some, map, option_copied, option_map, string_bytes};
ghost use Rattle.bop_words.specs.CommandTable.{word_of};
ghost use Rattle.bop_words.specs.WordRequests.{AskNothing, IsRequest, request_of};
ghost use Rattle.bop_words.specs.declared.command.Command.TheVariants as asked;
ghost use Rattle.bop_words.specs.declared.request.WordFault.TheVariants as fault;
ghost use Rattle.bop_words.specs.private.ReadOptions.{Answers, AreRead, has_file, values_of};

use crate::command::{Command, command_of};
use crate::limits::{USUAL_BUDGET, USUAL_GROUP, USUAL_WORKERS};
use crate::number::name_of;
use crate::options::{Options, options_of};
use crate::request::{Chosen, PlainRequest, RaceRequest, Request, WordFault};
use std::alloc::{AllocError, Global};

/// The name of a program's file, and the options after it.
#[derive(Clone, Copy, Debug)]
struct FileLine<'a> {
    program: &'a str,
    options: Options<'a>,
}

/// What the words after the program's name ask for.
#[tactic(auto, using(crate::proofs::CommandRequests::exact, crate::proofs::CommandRequests::asked, crate::proofs::WordRequestsLemmas::no_command, crate::proofs::WordRequestsLemmas::no_words_ask))]
pub fn read_words(alloc: Global, words: &[String]) -> Result<Request, WordFault>
    ensures request { IfOk result
        (λ request. IsRequest (map string_bytes words.now) (request_of request)) }
    ensures bad_words { (result ≡ Err fault.BadWords) ↔ AskNothing (map string_bytes words.now) }
{
    let [first, rest @ ..] = words else {
        return Err(WordFault::BadWords);
    };
    let Some(command) = command_of(first.as_str()) else {
        return Err(WordFault::BadWords);
    };
    answer(alloc, command, rest)
}

/// What a command and the words after it ask for.
fn answer(alloc: Global, command: Command, words: &[String]) -> Result<Request, WordFault>
    ensures { Answers (word_of command ∷ map string_bytes words.now) result }
{
    match command {
        Command::Run => run(alloc, words),
        Command::Demo => demo(words),
        Command::Seq => seq(alloc, words),
        Command::Mean => mean(alloc, words),
        Command::Check => check(alloc, words),
        Command::Replay => replay(alloc, words),
        Command::Source => source(words),
    }
}

/// The words of a command that has a file, read.
#[tactic(auto, using(crate::proofs::WordRequestsLemmas::unnamed, crate::proofs::WordRequestsLemmas::misnamed, crate::proofs::WordRequestsLemmas::wrong_options, crate::proofs::CommandRequests::line_read))]
fn file_line<'a>(command: Command, words: &'a [String]) -> Option<FileLine<'a>>
    requires { has_file command ≡ true }
    ensures { MatchOption result (AskNothing (word_of command ∷ map string_bytes words.now))
        (λ line. AreRead command (map string_bytes words.now) (Some line.program.now)
        (values_of line.options)) }
{
    let [name, rest @ ..] = words else {
        return None;
    };
    let Some(program) = name_of(name.as_str()) else {
        return None;
    };
    let Some(options) = options_of(command, rest) else {
        return None;
    };
    Some(FileLine { program, options })
}

/// `run PROG`: a race on the text of a file.
#[tactic(auto, using(crate::proofs::CommandRequests::run_request, crate::proofs::CommandRequests::run_asks))]
fn run(alloc: Global, words: &[String]) -> Result<Request, WordFault>
    ensures { Answers (word_of asked.Run ∷ map string_bytes words.now) result }
{
    let Some(line) = file_line(Command::Run, words) else {
        return Err(WordFault::BadWords);
    };
    let Ok(program) = line.program.to_string(alloc) else {
        return Err(WordFault::OutOfMemory);
    };
    let Ok(journal) = again(alloc, line.options.journal) else {
        return Err(WordFault::OutOfMemory);
    };
    Ok(Request::Race(RaceRequest {
        program: Chosen::File(program),
        workers: line.options.workers.unwrap_or(USUAL_WORKERS),
        group: line.options.group.unwrap_or(USUAL_GROUP),
        budget: line.options.budget.unwrap_or(USUAL_BUDGET),
        journal,
        confirm: line.options.confirm,
    }))
}

/// A name in memory of its own, where there is one.
fn again(alloc: Global, name: Option<&str>) -> Result<Option<String>, AllocError>
    ensures { IfOk result (λ own. option_map string_bytes own ≡ option_copied name.entry) }
{
    match name {
        None => Ok(None),
        Some(name) => Ok(Some(name.to_string(alloc)?)),
    }
}

/// `demo`: a race on a text that is made.
#[tactic(auto, using(crate::proofs::WordRequestsLemmas::wrong_words, crate::proofs::CommandRequests::demo_request, crate::proofs::CommandRequests::no_seed, crate::proofs::CommandRequests::no_regions))]
fn demo(words: &[String]) -> Result<Request, WordFault>
    ensures { Answers (word_of asked.Demo ∷ map string_bytes words.now) result }
{
    let Some(options) = options_of(Command::Demo, words) else {
        return Err(WordFault::BadWords);
    };
    let Some(seed) = options.seed else {
        return Err(WordFault::BadWords);
    };
    let Some(regions) = options.regions else {
        return Err(WordFault::BadWords);
    };
    Ok(Request::Race(RaceRequest {
        program: Chosen::Made(seed, regions),
        workers: options.workers.unwrap_or(USUAL_WORKERS),
        group: options.group.unwrap_or(USUAL_GROUP),
        budget: options.budget.unwrap_or(USUAL_BUDGET),
        journal: None,
        confirm: false,
    }))
}

/// `seq PROG`: to run the text of a file.
#[tactic(auto, using(crate::proofs::CommandRequests::seq_request, crate::proofs::CommandRequests::seq_asks))]
fn seq(alloc: Global, words: &[String]) -> Result<Request, WordFault>
    ensures { Answers (word_of asked.Seq ∷ map string_bytes words.now) result }
{
    let Some(line) = file_line(Command::Seq, words) else {
        return Err(WordFault::BadWords);
    };
    let Ok(program) = line.program.to_string(alloc) else {
        return Err(WordFault::OutOfMemory);
    };
    let budget = line.options.budget.unwrap_or(USUAL_BUDGET);
    Ok(Request::Plain(PlainRequest::Seq { program, budget }))
}

/// `mean PROG`: to tell what it means.
#[tactic(auto, using(crate::proofs::CommandRequests::mean_request, crate::proofs::CommandRequests::mean_asks))]
fn mean(alloc: Global, words: &[String]) -> Result<Request, WordFault>
    ensures { Answers (word_of asked.Mean ∷ map string_bytes words.now) result }
{
    let Some(line) = file_line(Command::Mean, words) else {
        return Err(WordFault::BadWords);
    };
    let Ok(program) = line.program.to_string(alloc) else {
        return Err(WordFault::OutOfMemory);
    };
    let budget = line.options.budget.unwrap_or(USUAL_BUDGET);
    Ok(Request::Plain(PlainRequest::Mean { program, budget }))
}

/// `check PROG`: to check it.
#[tactic(auto, using(crate::proofs::CommandRequests::check_request, crate::proofs::CommandRequests::check_asks))]
fn check(alloc: Global, words: &[String]) -> Result<Request, WordFault>
    ensures { Answers (word_of asked.Check ∷ map string_bytes words.now) result }
{
    let Some(line) = file_line(Command::Check, words) else {
        return Err(WordFault::BadWords);
    };
    let Ok(program) = line.program.to_string(alloc) else {
        return Err(WordFault::OutOfMemory);
    };
    Ok(Request::Plain(PlainRequest::Check { program }))
}

/// `replay PROG`: to play a schedule on it.
#[tactic(auto, using(crate::proofs::CommandRequests::replay_request, crate::proofs::CommandRequests::replay_asks, crate::proofs::CommandRequests::no_schedule))]
fn replay(alloc: Global, words: &[String]) -> Result<Request, WordFault>
    ensures { Answers (word_of asked.Replay ∷ map string_bytes words.now) result }
{
    let Some(line) = file_line(Command::Replay, words) else {
        return Err(WordFault::BadWords);
    };
    let Some(schedule) = line.options.schedule else {
        return Err(WordFault::BadWords);
    };
    let Ok(program) = line.program.to_string(alloc) else {
        return Err(WordFault::OutOfMemory);
    };
    let Ok(schedule) = schedule.to_string(alloc) else {
        return Err(WordFault::OutOfMemory);
    };
    Ok(Request::Plain(PlainRequest::Replay {
        program,
        schedule,
        group: line.options.group.unwrap_or(USUAL_GROUP),
        budget: line.options.budget.unwrap_or(USUAL_BUDGET),
    }))
}

/// `source`: the text that `demo` makes.
#[tactic(auto, using(crate::proofs::WordRequestsLemmas::wrong_words, crate::proofs::CommandRequests::source_request, crate::proofs::CommandRequests::no_source_seed, crate::proofs::CommandRequests::no_source_regions))]
fn source(words: &[String]) -> Result<Request, WordFault>
    ensures { Answers (word_of asked.Source ∷ map string_bytes words.now) result }
{
    let Some(options) = options_of(Command::Source, words) else {
        return Err(WordFault::BadWords);
    };
    let Some(seed) = options.seed else {
        return Err(WordFault::BadWords);
    };
    let Some(regions) = options.regions else {
        return Err(WordFault::BadWords);
    };
    Ok(Request::Plain(PlainRequest::Text { seed, regions }))
}
