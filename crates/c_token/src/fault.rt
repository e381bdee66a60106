//! Faults of a text.

use c_tree::{OutOfMemory, Place};

/// Why a text has no tokens.
#[derive(Clone, Copy, Debug, PartialEq, Eq)]
pub enum TokenFault {
    /// A byte that begins no token.
    BadByte(Place),
    /// A comment that isn't closed, at its start.
    OpenComment(Place),
    /// An integer or character constant that is none of the forms, at its start.
    BadLiteral(Place),
    /// An integer constant whose value is too large for its types, at its start.
    TooLarge(Place),
    /// A line that is none of the forms of line that begin with `#`, at the `#`.
    BadLine(Place),
    OutOfMemory,
}

impl<E: Into<OutOfMemory> + Drop> From<E> for TokenFault {
    ghost use Rattle.std.specs.Prelude.{◌≡◌};
    ghost use Rattle.c_token.specs.declared.fault.TokenFault.TheVariants.{OutOfMemory};

    ghost from_gives = { λ _ fault. fault ≡ OutOfMemory };

    fn from(_: E) -> Self {
        TokenFault::OutOfMemory
    }
}
