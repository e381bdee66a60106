//! Why an expression has no type, or is no constant.

ghost use Rattle.std.specs.Prelude.{◌≡◌, true, Some};
ghost use Rattle.c_tree.specs.Breach.{is_typing};
ghost use Rattle.c_types.specs.TypeFaults.{IsFault};

use c_tree::{Breach, Broken, Place};

/// Why an expression has no type, or is no constant: the breach with the least place, at one place the first of this order.
#[derive(Clone, Copy, Debug, PartialEq, Eq)]
pub enum TypeFault {
    /// Types that a rule doesn't allow.
    Mismatch(Place),
    /// No place, where one is needed.
    NotAPlace(Place),
    /// No constant, or one with an undefined act, where a constant is needed.
    NotConstant(Place),
    /// A name that isn't in scope.
    Unknown(Place),
    /// A wrong number of arguments.
    Arguments(Place),
    OutOfMemory,
}

/// A breach of an expression as a fault.
pub(crate) fn fault_of(breach: Breach) -> TypeFault
    requires { is_typing breach.kind ≡ true }
    ensures { IsFault result (Some breach) }
{
    match breach.kind {
        Broken::Mismatch => TypeFault::Mismatch(breach.place),
        Broken::NotAPlace => TypeFault::NotAPlace(breach.place),
        Broken::Unknown => TypeFault::Unknown(breach.place),
        Broken::Arguments => TypeFault::Arguments(breach.place),
        _ => unreachable!(),
    }
}
