//! Which open blocks declare a name.

ghost use Rattle.std.specs.Prelude.{◌≡◌, ◌-◌, ℕ, List, [], ◌++◌, length, slice_get, is_some, bytes_eq, OnOk, OnErr};
ghost use Rattle.c_scope.specs.BlockNames.{frame_of};
ghost use Rattle.c_scope.specs.private.Index.{numbers_of, number_if, without_last_if};

use crate::block::Block;
use c_tree::{Name, OutOfMemory};
use std::alloc::Global;
use std::collections::BTreeMap;

/// For each name in scope the numbers of the open blocks that declare it, the innermost last. A name that none declares is not kept.
#[derive(Drop)]
pub(crate) struct NameIndex {
    alloc: Global,
    numbers: BTreeMap<Vec<u8>, Vec<usize>>,
}

impl NameIndex {
    pub(crate) fn new(alloc: Global) -> NameIndex
        ensures { (name : List ℕ) → numbers_of result name ≡ [] }
    {
        NameIndex {
            alloc,
            numbers: BTreeMap::new(alloc),
        }
    }

    /// The innermost block that declares a name.
    pub(crate) fn innermost(&self, name: &Name) -> Option<usize>
        ensures { result ≡ slice_get (numbers_of self.now name.now)
            (length (numbers_of self.now name.now) - 1) }
    {
        let numbers = self.numbers.get(name.get())?;
        numbers.last().copied()
    }

    /// One block more declares a name, within those that do.
    pub(crate) fn push(&mut self, name: &Name, number: usize) -> Result<(), OutOfMemory>
        ensures pushed { OnOk result
            ((other : List ℕ) → numbers_of self.new other
            ≡ numbers_of self.old other ++ number_if (bytes_eq name.now other) number) }
        ensures refused { OnErr result
            ((other : List ℕ) → numbers_of self.new other ≡ numbers_of self.old other) }
    {
        if let Some(numbers) = self.numbers.get_mut(name.get()) {
            numbers.push(number)?;
            return Ok(());
        }
        let bytes = Vec::from_slice(self.alloc, name.get())?;
        self.numbers.insert(bytes, vec![in self.alloc; number]?)?;
        Ok(())
    }

    /// The innermost block that declares a name does so no more.
    fn pop(&mut self, name: &[u8])
        ensures { (other : List ℕ)
            → numbers_of self.new other
            ≡ without_last_if (bytes_eq name.now other) (numbers_of self.old other) }
    {
        if let Some(numbers) = self.numbers.get_mut(name) {
            numbers.pop();
            if numbers.is_empty() {
                self.numbers.remove(name);
            }
        }
    }

    /// The innermost block is closed: none of its names has its number any more.
    pub(crate) fn close<T: Drop>(&mut self, block: &Block<T>)
        ensures { (name : List ℕ)
            → numbers_of self.new name
            ≡ without_last_if (is_some (frame_of block.now name)) (numbers_of self.old name) }
    {
        for name in block.names.keys() {
            self.pop(name.as_slice());
        }
    }
}
