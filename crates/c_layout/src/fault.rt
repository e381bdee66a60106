//! Why a text has no layout.

use c_tree::{OutOfMemory, Place};

/// Why a text has no layout.
#[derive(Clone, Copy, Debug, PartialEq, Eq)]
pub enum LayoutFault {
    /// The globals don't end before the stack.
    DataTooLarge,
    /// A frame has more than 65,536 bytes: the place of the first such function's name.
    FrameTooLarge(Place),
    OutOfMemory,
}

impl<E: Into<OutOfMemory> + Drop> From<E> for LayoutFault {
    ghost use Rattle.std.specs.Prelude.{◌≡◌};
    ghost use Rattle.c_layout.specs.declared.fault.LayoutFault.TheVariants.{OutOfMemory};

    ghost from_gives = { λ _ fault. fault ≡ OutOfMemory };

    fn from(_: E) -> Self {
        LayoutFault::OutOfMemory
    }
}
