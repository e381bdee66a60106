//! The memory: its bytes, and the objects that live there.

ghost use Rattle.std.specs.Prelude.{◌≡◌, ◌<◌, ◌≤◌, ◌∷◌, ◌++◌, [], ℕ, IfOk, OnOk, OnErr, length, take, pos};
ghost use Rattle.c_semantics.specs.Contents.{unwritten, access_of, read_of};
ghost use Rattle.c_semantics.specs.Memory.{is_fine, digits, with_bytes, blank};
ghost use Rattle.c_semantics.specs.Pointers.{are_along};

use crate::bytes;
use crate::live::Live;
use crate::object::Object;
use bop_bits::MEMORY_BYTES;
use c_tree::{OutOfMemory, Undefined};
use std::alloc::Global;
use std::marker::Model;

/// A memory, which contracts see as its bytes and the objects that live.
#[derive(Drop)]
pub struct Memory {
    cells: Vec<Option<u8>>,
    live: Live,
}

impl Model for Memory {
    ghost use Rattle.std.specs.Prelude.{◌≡◌, length};
    ghost use Rattle.bop_bits.specs.declared.map.TheConstants.{MEMORY_BYTES};
    ghost use Rattle.c_semantics.specs.Contents.{Contents};

    ghost Value = { Contents };

    ghost view = { λ memory. record { bytes = memory.cells.items; live = memory.live } };

    ghost invariant = { λ memory. length memory.cells.items ≡ MEMORY_BYTES };
}

impl Memory {
    /// A memory where no byte is written and no object lives.
    pub fn new(alloc: Global) -> Result<Memory, OutOfMemory>
        ensures { IfOk result (λ memory. memory
            ≡ record { bytes = unwritten MEMORY_BYTES; live = [] }) }
    {
        Ok(Memory {
            cells: bytes::unwritten_bytes(alloc, MEMORY_BYTES)?,
            live: Live::new(alloc)?,
        })
    }

    /// Opens an object, whose bytes stay as they are.
    pub fn open(&mut self, object: Object) -> Result<(), OutOfMemory>
        ensures opened { OnOk result
            (self.new ≡ record self.old { live = self.old.live ++ object ∷ [] }) }
        ensures refused { OnErr result (self.new ≡ self.old) }
    {
        self.live.open(object)
    }

    /// Ends the newest objects, down to so many, in the time that their bytes take.
    pub fn close(&mut self, count: usize)
        ensures { self.new ≡ record self.old { live = take count self.old.live } }
    {
        self.live.close(count);
    }

    /// How many objects live.
    pub fn live_count(&self) -> usize
        ensures { result ≡ length self.now.live }
    {
        self.live.len()
    }

    /// Whether two addresses are along one object, its end included.
    pub fn along(&self, y: u64, z: i64) -> bool
        ensures { result ≡ are_along (pos y) z self.now.live }
    {
        self.live.along(y, z)
    }

    /// Whether bytes of one live object are accessed, at an address that is aligned.
    fn is_fine(&self, address: u64, size: u64) -> bool
        requires { 0 < size }
        ensures { result ≡ is_fine address size self.now.live }
    {
        self.live.holds(address, size) && address % size == 0
    }

    fn read(&self, address: u64, size: u64) -> Result<u32, Undefined>
        requires some { 0 < size }
        requires few { size ≤ 4 }
        ensures { result ≡ read_of size address self.now.bytes self.now.live }
    {
        if !self.is_fine(address, size) {
            return Err(Undefined::Access);
        }
        bytes::number(bytes::range(&self.cells, address, size as usize)).ok_or(
            Undefined::Indeterminate,
        )
    }

    /// The number that one byte holds.
    pub fn read_byte(&self, address: u64) -> Result<u32, Undefined>
        ensures { result ≡ read_of 1 address self.now.bytes self.now.live }
    {
        self.read(address, 1)
    }

    /// The number that four bytes hold.
    pub fn read_word(&self, address: u64) -> Result<u32, Undefined>
        ensures { result ≡ read_of 4 address self.now.bytes self.now.live }
    {
        self.read(address, 4)
    }

    fn write(&mut self, address: u64, bytes: &[u8]) -> Result<(), Undefined>
        requires { 0 < length bytes.now }
        ensures access { result ≡ access_of (length bytes.now) address self.old.live }
        ensures written { OnOk result
            (self.new ≡ record self.old { bytes = with_bytes address bytes.now self.old.bytes }) }
        ensures refused { OnErr result (self.new ≡ self.old) }
    {
        if !self.is_fine(address, bytes.len() as u64) {
            return Err(Undefined::Access);
        }
        bytes::fill(&mut self.cells, address, bytes);
        Ok(())
    }

    /// Writes the lowest byte of a number.
    pub fn write_byte(&mut self, address: u64, value: u32) -> Result<(), Undefined>
        ensures access { result ≡ access_of 1 address self.old.live }
        ensures written { OnOk result
            (self.new ≡ record self.old
            { bytes = with_bytes address (digits 1 value) self.old.bytes }) }
        ensures refused { OnErr result (self.new ≡ self.old) }
    {
        self.write(address, &[(value % 256) as u8])
    }

    /// Writes the four bytes of a number, the lowest first.
    pub fn write_word(&mut self, address: u64, value: u32) -> Result<(), Undefined>
        ensures access { result ≡ access_of 4 address self.old.live }
        ensures written { OnOk result
            (self.new ≡ record self.old
            { bytes = with_bytes address (digits 4 value) self.old.bytes }) }
        ensures refused { OnErr result (self.new ≡ self.old) }
    {
        self.write(address, &value.to_le_bytes())
    }

    /// Makes bytes not written.
    pub fn blank(&mut self, at: u64, size: u64)
        ensures { self.new ≡ record self.old { bytes = blank at size self.old.bytes } }
    {
        bytes::blank(&mut self.cells, at, size);
    }

    /// Writes bytes one behind the other, whoever holds them.
    pub fn fill(&mut self, at: u64, bytes: &[u8])
        ensures { self.new ≡ record self.old { bytes = with_bytes at bytes.now self.old.bytes } }
    {
        bytes::fill(&mut self.cells, at, bytes);
    }
}
