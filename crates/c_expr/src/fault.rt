//! Faults of a list of tokens.

use c_tree::{OutOfMemory, Place};

/// Why a list of tokens has no tree.
#[derive(Clone, Copy, Debug, PartialEq, Eq)]
pub enum ParseFault {
    /// The first token with which no text of the grammar goes on.
    Unexpected(Place),
    /// The first token whose level is above 200.
    TooDeep(Place),
    OutOfMemory,
}

impl<E: Into<OutOfMemory> + Drop> From<E> for ParseFault {
    ghost use Rattle.std.specs.Prelude.{◌≡◌};
    ghost use Rattle.c_expr.specs.declared.fault.ParseFault.TheVariants.{OutOfMemory};

    ghost from_gives = { λ _ fault. fault ≡ OutOfMemory };

    fn from(_: E) -> Self {
        ParseFault::OutOfMemory
    }
}
