//! Objects that live.

ghost use Rattle.std.specs.Prelude.{◌≡◌, ◌+◌, IsTrue, ◌↔◌};
ghost use Rattle.c_semantics.specs.Live.{LiesInMemory};
ghost use Rattle.c_semantics.specs.Memory.{holds};

use bop_bits::{DATA_FROM, MEMORY_BYTES};

/// An object that lives: the address of its first byte, and how many bytes it has.
#[derive(Clone, Copy, Debug, PartialEq, Eq)]
pub struct Object {
    pub address: u64,
    pub size: u64,
}

impl Object {
    /// Whether it holds so many bytes from an address on.
    pub fn holds(&self, at: u64, size: u64) -> bool
        ensures { result ≡ holds at size self.now }
    {
        self.address <= at && size <= self.size && at - self.address <= self.size - size
    }

    /// Whether it has a byte at least, and all lie in the memory.
    pub fn lies_in_memory(&self) -> bool
        ensures { IsTrue result ↔ LiesInMemory self.now }
    {
        let first = u64::from(DATA_FROM);
        let bytes = MEMORY_BYTES as u64;
        0 < self.size
            && self.size <= bytes
            && first <= self.address
            && self.address - first <= bytes - self.size
    }

    /// The cells of its bytes: the first one, and the first behind them.
    pub fn cells(&self) -> (usize, usize)
        requires { LiesInMemory self.now }
        ensures from { DATA_FROM + result.0 ≡ self.now.address }
        ensures to { DATA_FROM + result.1 ≡ self.now.address + self.now.size }
    {
        let from = (self.address - u64::from(DATA_FROM)) as usize;
        (from, from + self.size as usize)
    }
}
