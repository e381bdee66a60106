//! Laws of pieces.

ghost use Rattle.std.specs.Prelude.{◌≡◌};
ghost use Rattle.rv_run.specs.declared.piece.TheConstants.{PIECE_BYTES};

/// The length of a piece in numbers.
pub fn piece_in_numbers()
    ensures bytes { PIECE_BYTES ≡ 4096 }
{}
