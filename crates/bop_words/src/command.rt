//! The commands.

ghost use Rattle.std.specs.Prelude.{◌≡◌, ◌↔◌, MatchOption, IsTrue};
ghost use Rattle.bop_words.specs.CommandTable.{word_of};
ghost use Rattle.bop_words.specs.private.ReadOptions.{Takes};

use crate::option_name::OptionName;

/// A command: the first of the words.
#[derive(Clone, Copy, Debug, PartialEq, Eq)]
pub enum Command {
    Run,
    Demo,
    Seq,
    Mean,
    Check,
    Replay,
    Source,
}

/// The command of this word.
pub fn command_of(word: &str) -> Option<Command>
    ensures { MatchOption result ((command : Command) → word.now ≡ word_of command → ⊥)
        (λ command. word.now ≡ word_of command) }
{
    match word {
        "run" => Some(Command::Run),
        "demo" => Some(Command::Demo),
        "seq" => Some(Command::Seq),
        "mean" => Some(Command::Mean),
        "check" => Some(Command::Check),
        "replay" => Some(Command::Replay),
        "source" => Some(Command::Source),
        _ => None,
    }
}

impl Command {
    /// Whether the command takes the option.
    pub fn takes(self, option: OptionName) -> bool
        ensures { IsTrue result ↔ Takes self option }
    {
        use OptionName::*;
        match self {
            Command::Run => matches!(option, Workers | Group | Budget | Journal | Confirm),
            Command::Demo => matches!(option, Seed | Regions | Workers | Group | Budget),
            Command::Seq | Command::Mean => matches!(option, Budget),
            Command::Check => false,
            Command::Replay => matches!(option, Schedule | Group | Budget),
            Command::Source => matches!(option, Seed | Regions),
        }
    }
}
