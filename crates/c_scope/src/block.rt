//! The names that a block declares.

ghost use Rattle.std.specs.Prelude.{◌≡◌, IfOk, OnOk, OnErr};
ghost use Rattle.std.specs.Option.{option_copied};
ghost use Rattle.c_tree.specs.Blocks.{no_names, bound};
ghost use Rattle.c_scope.specs.BlockNames.{frame_of};
ghost use Rattle.c_scope.specs.private.Index.{unbound};

use c_tree::{Name, OutOfMemory};
use std::alloc::Global;
use std::collections::BTreeMap;

/// The names of a block, by their bytes.
#[derive(Drop)]
pub(crate) struct Block<T> {
    pub(crate) names: BTreeMap<Vec<u8>, T>,
}

impl<T: Drop> Block<T> {
    pub(crate) fn new(alloc: Global) -> Block<T>
        ensures { frame_of result ≡ no_names }
    {
        Block {
            names: BTreeMap::new(alloc),
        }
    }

    pub(crate) fn find(&self, name: &Name) -> Option<&T>
        ensures { option_copied result ≡ frame_of self.now name.now }
    {
        self.names.get(name.get())
    }

    /// Lets a name stand for something, and gives what it stood for before.
    pub(crate) fn insert(
        &mut self,
        alloc: Global,
        name: &Name,
        entry: T,
    ) -> Result<Option<T>, OutOfMemory>
        ensures before { IfOk result (λ before. before ≡ frame_of self.old name.now) }
        ensures bound { OnOk result
            (frame_of self.new ≡ bound name.now entry (frame_of self.old)) }
        ensures refused { OnErr result (frame_of self.new ≡ frame_of self.old) }
    {
        let bytes = Vec::from_slice(alloc, name.get())?;
        Ok(self.names.insert(bytes, entry)?)
    }

    pub(crate) fn remove(&mut self, name: &Name)
        ensures { frame_of self.new ≡ unbound name.now (frame_of self.old) }
    {
        self.names.remove(name.get());
    }
}
