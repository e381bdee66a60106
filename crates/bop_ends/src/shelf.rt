//! Where files stand.

ghost use Rattle.std.specs.Prelude.{◌≡◌, ℕ, List, Option, Bool, IsTrue, IfOk};
ghost use Rattle.bop_ends.specs.Ends.{HasLoadCause, IsFront};

use crate::LoadFault;
use std::alloc::Global;

/// Holds files, each under its name.
pub trait Shelf {
    /// Whether it tells what it holds.
    ghost tells: { Self → Bool };

    /// The file of this name, where it tells. `None` is a name that isn't there.
    ghost file: { Self → List ℕ → Option (List ℕ) };

    /// How often it has failed. The count stands still at the end of its 64 bits.
    ghost faults: { Self → ℕ };

    /// The first `most` bytes of a file. A name that isn't there is a fault.
    fn load(&mut self, alloc: Global, name: &str, most: usize) -> Result<Vec<u8>, LoadFault>
        ensures bytes { IsTrue (tells self.old)
            → IfOk result (λ bytes. IsFront (file self.old name.now) most bytes.items) }
        ensures tells { tells self.new ≡ tells self.old }
        ensures files { file self.new ≡ file self.old }
        ensures cause { HasLoadCause (faults self.old) (faults self.new) result };
}
