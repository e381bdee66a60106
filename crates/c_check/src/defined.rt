//! The functions that a text defines.

ghost use Rattle.std.specs.Prelude.{◌≡◌, ◌||◌, ◌++◌, ◌∷◌, [], ℕ, List, map, bytes_eq, IfOk, OnOk};
ghost use Rattle.c_tree.specs.Item.{Item as PureItem};
ghost use Rattle.c_tree.specs.View.{item_of};
ghost use Rattle.c_check.specs.private.Defined.{has, Defines};

use c_tree::{Item, Name, OutOfMemory};
use std::alloc::Global;
use std::collections::BTreeSet;

/// The names of functions that are defined, by their bytes.
#[derive(Drop)]
pub(crate) struct Defined {
    alloc: Global,
    names: BTreeSet<Vec<u8>>,
}

impl Defined {
    /// Those of no items.
    pub(crate) fn new(alloc: Global) -> Defined
        ensures { Defines result [] }
    {
        Defined {
            alloc,
            names: BTreeSet::new(alloc),
        }
    }

    /// Whether a name is there.
    pub(crate) fn has(&self, name: &Name) -> bool
        ensures { result ≡ has self.now name.now }
    {
        self.names.contains(name.get())
    }

    fn add(&mut self, name: &Name) -> Result<(), OutOfMemory>
        ensures { OnOk result ((other : List ℕ)
            → has self.new other ≡ (has self.old other || bytes_eq name.now other)) }
    {
        let bytes = Vec::from_slice(self.alloc, name.get())?;
        self.names.insert(bytes)?;
        Ok(())
    }

    /// One item more.
    pub(crate) fn pass(&mut self, item: &Item) -> Result<(), OutOfMemory>
        ensures { OnOk result ((ps : List PureItem) → Defines self.old ps
            → Defines self.new (ps ++ item_of item.now ∷ [])) }
    {
        match item {
            Item::Vars(_, _) => Ok(()),
            Item::Fun(f) => {
                if f.body.is_some() {
                    self.add(&f.name)
                } else {
                    Ok(())
                }
            }
        }
    }
}

/// The functions that items define.
pub(crate) fn defined_by(alloc: Global, items: &[Item]) -> Result<Defined, OutOfMemory>
    ensures { IfOk result (λ defined. Defines defined (map item_of items.now)) }
{
    let mut defined = Defined::new(alloc);
    for item in items {
        defined.pass(item)?;
    }
    Ok(defined)
}
