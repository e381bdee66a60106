//! A program that runs.

ghost use Rattle.std.specs.Prelude.{◌≡◌, ◌+◌, OnOk};
ghost use Rattle.c_meaning.specs.private.EvaluatorState.{Ran, SameSteps};
ghost use Rattle.c_semantics.specs.Memory.{value_at, store_at};
ghost use Rattle.c_semantics.specs.Names.{address_of};
ghost use Rattle.c_semantics.specs.Run.{count};

pub(crate) mod act;
mod acts;
pub(crate) mod starting;

use crate::halt::Halt;
use crate::output::Output;
use c_semantics::{Held, Home, Memory};
use c_tree::Place;

/// A program that runs: its memory and stack pointer, how much of the input was read, what it has put out, and the steps that are left.
#[derive(Drop)]
pub(crate) struct Machine {
    pub(crate) memory: Memory,
    pub(crate) sp: u32,
    pub(crate) cursor: usize,
    pub(crate) output: Output,
    pub(crate) left: u64,
}

impl Machine {
    /// Takes a step, if one is left.
    pub(crate) fn count(&mut self) -> Result<(), Halt>
        ensures ran { Ran count self.old self.new result }
        ensures fewer { OnOk result (self.old.left ≡ self.new.left + 1) }
    {
        if self.left == 0 {
            return Err(Halt::More);
        }
        self.left -= 1;
        Ok(())
    }

    /// The address at an offset from the stack pointer.
    pub(crate) fn in_frame(&self, offset: u32) -> u64
        ensures { result ≡ self.now.sp + offset }
    {
        u64::from(self.sp) + u64::from(offset)
    }

    /// The address of a variable.
    pub(crate) fn address(&self, home: Home) -> Result<u32, Halt>
        ensures { Ran (address_of home) self.now self.now result }
    {
        match home {
            Home::Fixed(address) => Ok(address),
            Home::InFrame(offset) => self.sp.checked_add(offset).ok_or(Halt::OutOfMemory),
            Home::Nowhere => Ok(0),
        }
    }

    /// What an object at an address holds.
    pub(crate) fn load(&self, held: Held, address: u32, at: Place) -> Result<u32, Halt>
        ensures { Ran (value_at held address at) self.now self.now result }
    {
        let read = match held {
            Held::Byte => self.memory.read_byte(u64::from(address)),
            Held::Word => self.memory.read_word(u64::from(address)),
            Held::Array => return Ok(address),
        };
        match read {
            Ok(value) => Ok(value),
            Err(act) => Err(Halt::Undefined(act, at)),
        }
    }

    /// Puts a value into an object, and gives it as it was stored.
    pub(crate) fn store(
        &mut self,
        held: Held,
        address: u64,
        value: u32,
        at: Place,
    ) -> Result<u32, Halt>
        ensures ran { Ran (store_at held address value at) self.old self.new result }
        ensures steps { SameSteps self.old self.new }
    {
        let (written, stored) = match held {
            Held::Byte => (self.memory.write_byte(address, value % 256), value % 256),
            Held::Word => (self.memory.write_word(address, value), value),
            Held::Array => return Ok(value),
        };
        match written {
            Ok(()) => Ok(stored),
            Err(act) => Err(Halt::Undefined(act, at)),
        }
    }
}
