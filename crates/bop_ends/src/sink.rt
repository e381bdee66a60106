//! Where bytes go.

ghost use Rattle.std.specs.Prelude.{ℕ, List, Option};
ghost use Rattle.bop_ends.specs.Ends.{HasCause, AppendsPiece};

use crate::Failed;

/// Takes the bytes that a run puts out.
pub trait Sink {
    /// The bytes that it holds, where it tells them.
    ghost content: { Self → Option (List ℕ) };

    /// How often it has failed. The count stands still at the end of its 64 bits.
    ghost faults: { Self → ℕ };

    /// Adds the piece behind the bytes that the sink holds. After a failure it holds a front of the
    /// piece behind them.
    fn append(&mut self, piece: &[u8]) -> Result<(), Failed>
        ensures bytes { AppendsPiece (content self.old) (content self.new) result piece.now }
        ensures cause { HasCause (faults self.old) (faults self.new) result };
}
