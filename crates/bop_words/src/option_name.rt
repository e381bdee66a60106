//! The names of options.

ghost use Rattle.std.specs.Prelude.{◌≡◌, MatchOption};
ghost use Rattle.bop_words.specs.OptionTable.{row_of};

/// An option.
#[derive(Clone, Copy, Debug, PartialEq, Eq)]
pub enum OptionName {
    Workers,
    Group,
    Budget,
    Journal,
    Confirm,
    Seed,
    Regions,
    Schedule,
}

/// The option of this name.
pub fn option_named(name: &str) -> Option<OptionName>
    ensures { MatchOption result ((option : OptionName) → name.now ≡ (row_of option).name → ⊥)
        (λ option. name.now ≡ (row_of option).name) }
{
    match name {
        "--workers" => Some(OptionName::Workers),
        "--group" => Some(OptionName::Group),
        "--budget" => Some(OptionName::Budget),
        "--journal" => Some(OptionName::Journal),
        "--confirm" => Some(OptionName::Confirm),
        "--seed" => Some(OptionName::Seed),
        "--regions" => Some(OptionName::Regions),
        "--schedule" => Some(OptionName::Schedule),
        _ => None,
    }
}
