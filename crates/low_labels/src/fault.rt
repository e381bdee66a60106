//! Why nothing was added.

use bop_ends::OutOfMemory;

/// Why nothing was added.
#[derive(Clone, Copy, Debug, PartialEq, Eq)]
pub enum AsmFault {
    /// The code would have more than 245,760 words.
    CodeTooLong,
    OutOfMemory,
}

impl<E: Into<OutOfMemory> + Drop> From<E> for AsmFault {
    ghost use Rattle.std.specs.Prelude.{◌≡◌};
    ghost use Rattle.low_labels.specs.declared.fault.AsmFault.TheVariants.{OutOfMemory};

    ghost from_gives = { λ _ fault. fault ≡ OutOfMemory };

    fn from(_: E) -> Self {
        AsmFault::OutOfMemory
    }
}
