//! Why a tree is not accepted.

ghost use Rattle.std.specs.Prelude.{◌≡◌, Some};
ghost use Rattle.c_check.specs.CheckFaults.{kind_of, IsFault};

use c_tree::{Breach, Broken, Place};

/// Which rule is broken.
#[derive(Clone, Copy, Debug, PartialEq, Eq)]
pub enum CheckKind {
    /// A name that isn't in scope, or a function that is called and never defined.
    Unknown,
    /// A name that its block declares a second time, or a second definition.
    Twice,
    /// Types that a rule doesn't allow, or no place or no constant, where one is needed.
    BadType,
    /// A wrong number of arguments, or a parameter without a name in a definition.
    Arguments,
    Marker,
    /// No `main` that takes nothing and gives an int.
    NoMain,
    TooManyParameters,
}

/// Why a tree is not accepted: the breach with the least place, at one place the first kind.
#[derive(Clone, Copy, Debug, PartialEq, Eq)]
pub enum CheckFault {
    Breach(CheckKind, Place),
    OutOfMemory,
}

fn kind_of(kind: Broken) -> CheckKind
    ensures { result ≡ kind_of kind }
{
    match kind {
        Broken::Mismatch | Broken::NotAPlace | Broken::NotConstant => CheckKind::BadType,
        Broken::Unknown => CheckKind::Unknown,
        Broken::Arguments => CheckKind::Arguments,
        Broken::Twice => CheckKind::Twice,
        Broken::Marker => CheckKind::Marker,
        Broken::NoMain => CheckKind::NoMain,
        Broken::TooManyParameters => CheckKind::TooManyParameters,
    }
}

/// A breach as a fault.
pub(crate) fn fault_of(breach: Breach) -> CheckFault
    ensures { IsFault result (Some breach) }
{
    CheckFault::Breach(kind_of(breach.kind), breach.place)
}
