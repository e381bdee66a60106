//! The least breach.

ghost use Rattle.std.specs.Prelude.{◌≡◌};
ghost use Rattle.c_tree.specs.Breach.{check_number, type_number, number, is_before, nearer, lesser, nothing_found, unless, Adds};

use c_tree::{Breach, Broken, Least, Place, Ranking};

fn check_number(kind: Broken) -> u32
    ensures { result ≡ check_number kind }
{
    match kind {
        Broken::Unknown => 1,
        Broken::Twice => 2,
        Broken::Mismatch => 3,
        Broken::NotAPlace => 3,
        Broken::NotConstant => 3,
        Broken::Arguments => 4,
        Broken::Marker => 5,
        Broken::NoMain => 6,
        Broken::TooManyParameters => 7,
    }
}

fn type_number(kind: Broken) -> u32
    ensures { result ≡ type_number kind }
{
    match kind {
        Broken::Mismatch => 1,
        Broken::NotAPlace => 2,
        Broken::NotConstant => 3,
        Broken::Unknown => 4,
        Broken::Arguments => 5,
        Broken::Twice => 6,
        Broken::Marker => 7,
        Broken::NoMain => 8,
        Broken::TooManyParameters => 9,
    }
}

fn number(by: Ranking, kind: Broken) -> u32
    ensures { result ≡ number by kind }
{
    match by {
        Ranking::ForTypes => type_number(kind),
        Ranking::ForChecks => check_number(kind),
    }
}

fn is_before(by: Ranking, a: &Breach, b: &Breach) -> bool
    ensures { result ≡ is_before by a.now b.now }
{
    a.place.line < b.place.line
        || a.place.line == b.place.line
            && (a.place.column < b.place.column
                || a.place.column == b.place.column && number(by, a.kind) < number(by, b.kind))
}

fn nearer(by: Ranking, found: Option<Breach>, breach: Breach) -> Option<Breach>
    ensures { result ≡ nearer by found breach }
{
    match found {
        None => Some(breach),
        Some(old) => {
            if is_before(by, &breach, &old) {
                Some(breach)
            } else {
                Some(old)
            }
        }
    }
}

/// No breach yet.
pub fn none_found(by: Ranking) -> Least
    ensures { result ≡ nothing_found by }
{
    Least { by, found: None }
}

/// Keeps a breach where it comes before the one that was found.
fn keep(least: &mut Least, breach: Breach)
    ensures { least.new ≡ lesser least.old breach }
{
    least.found = nearer(least.by, least.found, breach);
}

/// Keeps a breach, unless all is right.
pub fn note(least: &mut Least, right: bool, kind: Broken, place: Place)
    ensures { Adds least.old least.new (unless right kind place) }
{
    if !right {
        keep(least, Breach { kind, place });
    }
}
