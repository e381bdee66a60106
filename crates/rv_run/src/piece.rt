//! Bytes on their way to a sink.

ghost use Rattle.std.specs.Prelude.{◌≡◌, ◌≤◌, ◌<◌, ◌++◌, ◌∷◌, [], List, ℕ, take, length, IsTrue, ◌↔◌};

use std::marker::Model;

/// How many bytes a piece has at most.
pub const PIECE_BYTES: usize = 4096;

/// Bytes that a machine has put out and that no sink has yet.
#[derive(Drop)]
pub struct Piece {
    array: [u8; 4096],
    len: usize,
}

impl Model for Piece {
    ghost Value = { List ℕ };

    ghost view = { λ piece. take piece.len piece.array };

    ghost invariant = { λ piece. piece.len ≤ 4096 };
}

impl Piece {
    pub fn new() -> Piece
        ensures { result ≡ [] }
    {
        Piece {
            array: [0; 4096],
            len: 0,
        }
    }

    pub fn bytes(&self) -> &[u8]
        ensures bytes { result.now ≡ self.now }
        ensures most { length self.now ≤ PIECE_BYTES }
    {
        &self.array[..self.len]
    }

    pub fn clear(&mut self)
        ensures { self.new ≡ [] }
    {
        self.len = 0;
    }

    pub fn is_full(&self) -> bool
        ensures full { IsTrue result ↔ (length self.now ≡ PIECE_BYTES) }
        ensures most { length self.now ≤ PIECE_BYTES }
    {
        self.len == PIECE_BYTES
    }

    /// Adds a byte.
    pub fn push(&mut self, byte: u8)
        requires { length self.old < PIECE_BYTES }
        ensures { self.new ≡ self.old ++ byte ∷ [] }
    {
        self.array[self.len] = byte;
        self.len += 1;
    }
}
