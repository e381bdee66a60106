//! The options of a command.

ghost use Rattle.std.specs.Prelude.{◌≡◌, ◌≢◌, ◌↔◌, ◌≤◌, [], ◌∷◌, length, List, ℕ, MatchOption, IfSome, IsTrue, map, string_bytes};
ghost use Rattle.bop_words.specs.OptionTable.{Absent, Value, row_of, IsWritten};
ghost use Rattle.bop_words.specs.private.ReadOptions.{AreNoOptions, GivesNoValue, IsReadUpTo, IsWith, ReadsOne, values_of};

use crate::command::Command;
use crate::limits::{REGIONS_LIMIT, WORKERS_LIMIT};
use crate::number::{name_of, number_of, small_number_of};
use crate::option_name::{OptionName, option_named};
use rv_step::{BUDGET_LIMIT, GROUP_LIMIT};

/// The options that were read.
#[derive(Clone, Copy, Debug)]
pub struct Options<'a> {
    pub workers: Option<u32>,
    pub group: Option<u32>,
    pub budget: Option<u64>,
    pub journal: Option<&'a str>,
    pub confirm: bool,
    pub seed: Option<u32>,
    pub regions: Option<u32>,
    pub schedule: Option<&'a str>,
}

/// What has been read, and the words that are left.
#[derive(Clone, Copy, Debug)]
struct Reading<'a> {
    options: Options<'a>,
    rest: &'a [String],
}

/// The options of a command that these words give.
pub fn options_of<'a>(command: Command, words: &'a [String]) -> Option<Options<'a>>
    ensures { MatchOption result (AreNoOptions command (map string_bytes words.now))
        (λ options. IsReadUpTo command (map string_bytes words.now) [] (values_of options)) }
{
    let mut reading = Reading {
        options: Options::none(),
        rest: words,
    };
    while let [name, behind @ ..] = reading.rest {
        reading = reading.next(command, name.as_str(), behind)?;
    }
    Some(reading.options)
}

impl<'a> Reading<'a> {
    /// With the option of this name, read of the words behind it.
    #[tactic(auto, using(crate::proofs::ReadOptionsLemmas::one_read, crate::proofs::ReadOptionsLemmas::unnamed_next, crate::proofs::ReadOptionsLemmas::refused_next, crate::proofs::ReadOptionsLemmas::twice_next, crate::proofs::ReadOptionsLemmas::unread_next))]
    fn next(self, command: Command, name: &str, behind: &'a [String]) -> Option<Reading<'a>>
        ensures read { MatchOption result
            ((words : List (List ℕ)) → IsReadUpTo command words
            (name.now ∷ map string_bytes behind.now) (values_of self.entry.options)
            → AreNoOptions command words)
            (λ reading. (words : List (List ℕ)) → IsReadUpTo command words
            (name.now ∷ map string_bytes behind.now) (values_of self.entry.options)
            → IsReadUpTo command words (map string_bytes reading.rest.now)
            (values_of reading.options)) }
        ensures shorter { IfSome result (λ reading. length reading.rest.now ≤ length behind.now) }
    {
        let Some(option) = option_named(name) else {
            return None;
        };
        if !command.takes(option) {
            return None;
        }
        if self.options.has(option) {
            return None;
        }
        self.options.read(option, behind)
    }
}

impl<'a> Options<'a> {
    /// No options.
    fn none() -> Options<'a>
        ensures { (option : OptionName) → values_of result option ≡ Absent }
    {
        Options {
            workers: None,
            group: None,
            budget: None,
            journal: None,
            confirm: false,
            seed: None,
            regions: None,
            schedule: None,
        }
    }

    /// Whether the option was read.
    fn has(&self, option: OptionName) -> bool
        ensures { IsTrue result ↔ (values_of self.now option ≢ Absent) }
    {
        match option {
            OptionName::Workers => self.workers.is_some(),
            OptionName::Group => self.group.is_some(),
            OptionName::Budget => self.budget.is_some(),
            OptionName::Journal => self.journal.is_some(),
            OptionName::Confirm => self.confirm,
            OptionName::Seed => self.seed.is_some(),
            OptionName::Regions => self.regions.is_some(),
            OptionName::Schedule => self.schedule.is_some(),
        }
    }

    /// The options with this one, read of the words behind its name, and the words after it.
    #[tactic(auto, using(crate::proofs::UpdatedOptions::confirm_set))]
    fn read(self, option: OptionName, behind: &'a [String]) -> Option<Reading<'a>>
        ensures one { MatchOption result (GivesNoValue option (map string_bytes behind.now))
            (λ reading. ReadsOne option (map string_bytes behind.now)
            (map string_bytes reading.rest.now)
            (values_of self.entry) (values_of reading.options)) }
        ensures shorter { IfSome result (λ reading. length reading.rest.now ≤ length behind.now) }
    {
        match (option, behind) {
            (OptionName::Confirm, _) => {
                let options = Options {
                    confirm: true,
                    ..self
                };
                Some(Reading {
                    options,
                    rest: behind,
                })
            }
            (_, []) => None,
            (_, [word, rest @ ..]) => {
                let options = self.with(option, word.as_str())?;
                Some(Reading { options, rest })
            }
        }
    }

    /// The options with this one, of which this word is the value. `--confirm` has none.
    #[tactic(auto, using(crate::proofs::UpdatedOptions::workers_set, crate::proofs::UpdatedOptions::group_set, crate::proofs::UpdatedOptions::budget_set, crate::proofs::UpdatedOptions::journal_set, crate::proofs::UpdatedOptions::seed_set, crate::proofs::UpdatedOptions::regions_set, crate::proofs::UpdatedOptions::schedule_set))]
    fn with(self, option: OptionName, word: &'a str) -> Option<Options<'a>>
        ensures { MatchOption result
            ((value : Value) → IsWritten (row_of option).kind (word.now ∷ []) value → ⊥)
            (λ options. IsWith self.entry options word.now option) }
    {
        match option {
            OptionName::Workers => Some(Options {
                workers: Some(small_number_of(word, 1, WORKERS_LIMIT)?),
                ..self
            }),
            OptionName::Group => Some(Options {
                group: Some(small_number_of(word, 1, GROUP_LIMIT)?),
                ..self
            }),
            OptionName::Budget => Some(Options {
                budget: Some(number_of(word, 1, BUDGET_LIMIT)?),
                ..self
            }),
            OptionName::Journal => Some(Options {
                journal: Some(name_of(word)?),
                ..self
            }),
            OptionName::Confirm => None,
            OptionName::Seed => Some(Options {
                seed: Some(small_number_of(word, 0, u32::MAX)?),
                ..self
            }),
            OptionName::Regions => Some(Options {
                regions: Some(small_number_of(word, 1, REGIONS_LIMIT)?),
                ..self
            }),
            OptionName::Schedule => Some(Options {
                schedule: Some(name_of(word)?),
                ..self
            }),
        }
    }
}
