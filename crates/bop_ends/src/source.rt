//! Where bytes come from.

ghost use Rattle.std.specs.Prelude.{ℕ, List, Option};
ghost use Rattle.std.specs.Io.{ReadsAtMost};
ghost use Rattle.std.specs.Io.KnownBytes.{ReadConsumes};
ghost use Rattle.bop_ends.specs.Ends.{HasCause};

use crate::Failed;

/// Gives the bytes that a run takes in.
pub trait Source {
    /// The bytes that are left, where it tells them.
    ghost left: { Self → Option (List ℕ) };

    /// How often it has failed. The count stands still at the end of its 64 bits.
    ghost faults: { Self → ℕ };

    /// Moves the first bytes of what is left into the front of the buffer, and gives their number.
    /// No bytes for a buffer that has room is the end. After a failure nothing was taken. Of the
    /// buffer behind the bytes moved, and of all of it after a failure, nothing is known.
    fn read(&mut self, into: &mut [u8]) -> Result<usize, Failed>
        ensures bound { ReadsAtMost result into.new }
        ensures bytes { ReadConsumes (left self.old) (left self.new) result into.new }
        ensures cause { HasCause (faults self.old) (faults self.new) result };
}
