//! Why a program stops before its end.

use c_tree::{OutOfMemory, Place, Undefined};

/// Why a program stops before its end.
#[derive(Clone, Copy, Debug, PartialEq, Eq)]
pub(crate) enum Halt {
    StackFull,
    More,
    Undefined(Undefined, Place),
    OutOfMemory,
}

impl<E: Into<OutOfMemory> + Drop> From<E> for Halt {
    ghost use Rattle.std.specs.Prelude.{◌≡◌};
    ghost use Rattle.c_meaning.specs.declared.halt.Halt.TheVariants.{OutOfMemory};

    ghost from_gives = { λ _ halt. halt ≡ OutOfMemory };

    fn from(_: E) -> Halt {
        Halt::OutOfMemory
    }
}
