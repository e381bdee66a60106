//! The names in scope.

ghost use Rattle.std.specs.Prelude.{◌≡◌, ◌<◌, ◌++◌, ◌∷◌, [], List, length, OnOk, OnErr, option_map};
ghost use Rattle.std.specs.Option.{option_copied};
ghost use Rattle.c_tree.specs.Blocks.{entered};
ghost use Rattle.c_resolve.specs.DeclaredNames.{named, IsKept, IsSame};
ghost use Rattle.c_semantics.specs.Names.{Definition, with_name, no_names};

use crate::named::Named;
use c_scope::Scope;
use c_tree::{Name, OutOfMemory};
use std::alloc::Global;

/// The names in scope, with what they stand for.
#[derive(Drop)]
pub struct Names {
    pub(super) alloc: Global,
    scope: Scope<Named>,
}

impl Names {
    ghost use Rattle.c_resolve.specs.DeclaredNames.{blocks_in, names_in};

    pub fn new(alloc: Global) -> Names
        ensures { (definitions : List Definition) → names_in definitions result ≡ no_names }
    {
        Names {
            alloc,
            scope: Scope::new(alloc),
        }
    }

    /// Where names take their memory.
    pub fn alloc(&self) -> Global
        ensures { result ≡ self.now.alloc }
    {
        self.alloc
    }

    /// Opens a block within the innermost one.
    pub fn enter(&mut self) -> Result<(), OutOfMemory>
        ensures entered { OnOk result (blocks_in self.new ≡ entered (blocks_in self.old)) }
        ensures refused { OnErr result (IsSame self.old self.new) }
    {
        self.scope.enter()?;
        Ok(())
    }

    /// Closes the innermost block.
    pub fn leave(&mut self)
        requires { 0 < length (blocks_in self.old).outer }
        ensures { (blocks_in self.old).outer
            ≡ (blocks_in self.new).outer ++ (blocks_in self.new).inner ∷ [] }
    {
        self.scope.leave();
    }

    /// What a name stands for.
    pub fn find(&self, name: &Name) -> Option<&Named>
        ensures { (definitions : List Definition)
            → option_map (named definitions) (option_copied result)
            ≡ names_in definitions self.now name.now }
    {
        self.scope.find(name)
    }

    /// Declares a name in the innermost block, where it hides another of the same bytes.
    pub fn declare(&mut self, name: &Name, stands_for: Named) -> Result<(), OutOfMemory>
        ensures declared { OnOk result
            ((definitions : List Definition)
            → names_in definitions self.new
            ≡ with_name name.now (named definitions stands_for) (names_in definitions self.old)) }
        ensures kept { OnOk result (IsKept self.old self.new) }
        ensures refused { OnErr result (IsSame self.old self.new) }
    {
        self.scope.declare(name, stands_for)?;
        Ok(())
    }
}
