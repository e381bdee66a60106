//! Breaches of the rules of the language.

use crate::place::Place;

/// Which rule is broken.
#[derive(Clone, Copy, Debug, PartialEq, Eq)]
pub enum Broken {
    /// Types that a rule doesn't allow.
    Mismatch,
    /// No place, where one is needed.
    NotAPlace,
    /// No constant, where one is needed.
    NotConstant,
    /// A name that isn't in scope.
    Unknown,
    /// A wrong number of arguments, or a parameter without a name in a definition.
    Arguments,
    /// A name that its block declares a second time.
    Twice,
    Marker,
    NoMain,
    TooManyParameters,
}

/// A broken rule, with its place.
#[derive(Clone, Copy, Debug, PartialEq, Eq)]
pub struct Breach {
    pub kind: Broken,
    pub place: Place,
}

/// Which of two breaches at one place comes first: as the faults of types are numbered, or as those of a check.
#[derive(Clone, Copy, Debug, PartialEq, Eq)]
pub enum Ranking {
    ForTypes,
    ForChecks,
}

/// The least breach that was found so far: at one place the one that the ranking puts first.
#[derive(Clone, Copy, Debug, PartialEq, Eq)]
pub struct Least {
    pub by: Ranking,
    pub found: Option<Breach>,
}
