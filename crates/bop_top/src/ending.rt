//! How a command has ended, with what its report tells.

ghost use Rattle.std.specs.Prelude.{◌≡◌, None, Some};
ghost use Rattle.bop_top.specs.CommandTransfers.{no_figures, bytes_alone};

use crate::outcome::Outcome;

/// What a report tells beside the status, where it does.
#[derive(Clone, Copy, Debug)]
pub struct Figures {
    /// How many steps the machine has taken.
    pub steps: Option<u64>,
    /// How many bytes were written.
    pub bytes: Option<u64>,
}

impl Figures {
    pub fn none() -> Figures
        ensures { result ≡ no_figures }
    {
        Figures {
            steps: None,
            bytes: None,
        }
    }

    pub fn of_bytes(bytes: u64) -> Figures
        ensures { result ≡ bytes_alone bytes }
    {
        Figures {
            steps: None,
            bytes: Some(bytes),
        }
    }

    pub fn of_run(steps: u64, bytes: u64) -> Figures
        ensures { result ≡ record { steps = Some steps; bytes = Some bytes } }
    {
        Figures {
            steps: Some(steps),
            bytes: Some(bytes),
        }
    }
}

/// How a command has ended, and what its report tells.
#[derive(Clone, Copy, Debug)]
pub struct Ending {
    pub outcome: Outcome,
    pub told: Figures,
}

impl Ending {
    /// An end whose report is the line about the status alone.
    pub fn of(outcome: Outcome) -> Ending
        ensures { result ≡ record { outcome = outcome; told = no_figures } }
    {
        Ending {
            outcome,
            told: Figures::none(),
        }
    }
}
