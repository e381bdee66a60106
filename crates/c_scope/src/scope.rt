//! The names in scope.

ghost use Rattle.std.specs.Prelude.{◌≡◌, [], ◌∷◌, ◌++◌, ◌<◌, length, IfOk, OnOk, OnErr, is_some};
ghost use Rattle.std.specs.Option.{option_copied};
ghost use Rattle.c_tree.specs.Blocks.{look, entered, no_blocks, declared};
ghost use Rattle.c_scope.specs.BlockNames.{frame_of, frames_of};
ghost use Rattle.c_scope.specs.private.Index.{IsIndexOf};

use crate::block::Block;
use crate::index::NameIndex;
use c_tree::{Name, OutOfMemory};
use std::alloc::Global;
use std::mem;

/// The names in scope: for each open block those that it declares, and an index by the blocks' numbers, where the outermost has 0 and `inner` the last.
#[derive(Drop)]
pub struct Scope<T> {
    alloc: Global,
    outer: Vec<Block<T>>,
    inner: Block<T>,
    index: NameIndex,
    ghost indexed: { IsIndexOf (frames_of outer.items ++ frame_of inner ∷ []) index },
}

impl<T: Drop> Scope<T> {
    ghost use Rattle.c_scope.specs.Scoped.{blocks_of};

    /// One block without names.
    pub fn new(alloc: Global) -> Scope<T>
        ensures { blocks_of result ≡ no_blocks }
    {
        Scope {
            alloc,
            outer: Vec::new(alloc),
            inner: Block::new(alloc),
            index: NameIndex::new(alloc),
        }
    }

    /// Opens a block within the innermost one.
    pub fn enter(&mut self) -> Result<(), OutOfMemory>
        ensures entered { OnOk result (blocks_of self.new ≡ entered (blocks_of self.old)) }
        ensures refused { OnErr result (blocks_of self.new ≡ blocks_of self.old) }
    {
        let outside = mem::replace(&mut self.inner, Block::new(self.alloc));
        match self.outer.push(outside) {
            Ok(()) => Ok(()),
            Err(refused) => {
                self.inner = refused.value;
                Err(OutOfMemory)
            }
        }
    }

    /// Closes the innermost block, with a look-up for each of its names.
    pub fn leave(&mut self)
        requires { 0 < length (blocks_of self.old).outer }
        ensures { (blocks_of self.old).outer
            ≡ (blocks_of self.new).outer ++ (blocks_of self.new).inner ∷ [] }
    {
        if let Some(block) = self.outer.pop() {
            self.index.close(&self.inner);
            self.inner = block;
        }
    }

    /// Declares a name in the innermost block.
    pub fn declare(&mut self, name: &Name, entry: T) -> Result<(), OutOfMemory>
        ensures declared { OnOk result
            (blocks_of self.new ≡ declared name.now entry (blocks_of self.old)) }
        ensures refused { OnErr result (blocks_of self.new ≡ blocks_of self.old) }
    {
        if self.inner.insert(self.alloc, name, entry)?.is_some() {
            return Ok(());
        }
        match self.index.push(name, self.outer.len()) {
            Ok(()) => Ok(()),
            Err(refused) => {
                self.inner.remove(name);
                Err(refused)
            }
        }
    }

    /// What a name stands for in the innermost block.
    pub fn find_here(&self, name: &Name) -> Option<&T>
        ensures { option_copied result ≡ (blocks_of self.now).inner name.now }
    {
        self.inner.find(name)
    }

    /// Whether the innermost block declares a name.
    pub fn is_here(&self, name: &Name) -> bool
        ensures { result ≡ is_some ((blocks_of self.now).inner name.now) }
    {
        self.find_here(name).is_some()
    }

    /// What a name stands for: the innermost block that declares it counts. The index gives its number, so no other block is searched.
    pub fn find(&self, name: &Name) -> Option<&T>
        ensures { option_copied result ≡ look (blocks_of self.now) name.now }
    {
        let number = self.index.innermost(name)?;
        let block = self.outer.get(number).unwrap_or(&self.inner);
        block.find(name)
    }
}
