//! What a program puts out.

ghost use Rattle.std.specs.Prelude.{◌≡◌, ◌++◌, ◌∷◌, [], OnOk, OnErr};

use bop_ends::OutOfMemory;
use std::alloc::Global;
use std::marker::Model;

/// The bytes that a program has put out, which contracts see as their list.
#[derive(Debug, Drop)]
pub struct Output {
    bytes: Vec<u8>,
}

impl Model for Output {
    ghost use Rattle.std.specs.Prelude.{List, ℕ};

    ghost Value = { List ℕ };

    ghost view = { λ output. output.bytes.items };
}

impl Output {
    /// No bytes.
    pub fn new(alloc: Global) -> Output
        ensures { result ≡ [] }
    {
        Output {
            bytes: Vec::new(alloc),
        }
    }

    /// These bytes.
    pub fn of(bytes: Vec<u8>) -> Output
        ensures { result ≡ bytes.items }
    {
        Output { bytes }
    }

    /// The bytes.
    pub fn get(&self) -> &[u8]
        ensures { result.now ≡ self.now }
    {
        self.bytes.as_slice()
    }

    /// Puts out one more byte.
    pub fn push(&mut self, byte: u8) -> Result<(), OutOfMemory>
        ensures pushed { OnOk result (self.new ≡ self.old ++ byte ∷ []) }
        ensures refused { OnErr result (self.new ≡ self.old) }
    {
        self.bytes.push(byte)?;
        Ok(())
    }
}
