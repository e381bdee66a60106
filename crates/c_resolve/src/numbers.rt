//! The numbers of the functions that a text defines.

ghost use Rattle.std.specs.Prelude.{◌≡◌, ◌++◌, ◌∷◌, [], ℕ, List, Some, None, map, bytes_eq, if◌then◌else◌, IfOk, OnOk};
ghost use Rattle.c_tree.specs.Item.{Item as PureItem};
ghost use Rattle.c_tree.specs.View.{item_of};
ghost use Rattle.c_resolve.specs.DeclaredNames.{indexed_at};
ghost use Rattle.c_semantics.specs.Names.{Definition};
ghost use Rattle.c_resolve.specs.Routines.{definitions_of, or_number, AreNumbersOf};

use c_tree::{Item, Name, OutOfMemory};
use std::alloc::Global;
use std::collections::BTreeMap;

/// Functions that are defined, by their names: each with its number in the order of the text, which is the first where a name is defined again.
#[derive(Drop)]
pub struct Numbers {
    alloc: Global,
    numbers: BTreeMap<Vec<u8>, u32>,
    count: u32,
}

impl Numbers {
    /// Those of no items.
    fn new(alloc: Global) -> Numbers
        ensures { AreNumbersOf result [] }
    {
        Numbers {
            alloc,
            numbers: BTreeMap::new(alloc),
            count: 0,
        }
    }

    /// How many definitions there are.
    pub fn count(&self) -> u32
        ensures { result ≡ self.now.count }
    {
        self.count
    }

    /// A name's number.
    pub fn find(&self, name: &[u8]) -> Option<u32>
        ensures { result ≡ indexed_at self.now.numbers name.now }
    {
        self.numbers.get(name).copied()
    }

    /// Gives a name the number that comes next, unless it has one.
    fn give(&mut self, name: &Name) -> Result<(), OutOfMemory>
        ensures count { self.new.count ≡ self.old.count }
        ensures numbers { OnOk result
            ((other : List ℕ) → indexed_at self.new.numbers other
            ≡ or_number (indexed_at self.old.numbers other)
            (if bytes_eq name.now other then Some self.old.count else None)) }
    {
        if self.numbers.get(name.get()).is_some() {
            return Ok(());
        }
        let key = Vec::from_slice(self.alloc, name.get())?;
        match self.numbers.insert(key, self.count) {
            Ok(_none) => Ok(()),
            Err(_refused) => Err(OutOfMemory),
        }
    }

    /// One definition more.
    fn add(&mut self, name: &Name) -> Result<(), OutOfMemory>
        ensures { OnOk result ((ds : List Definition) → (d : Definition)
            → name.now ≡ d.function.name → AreNumbersOf self.old ds
            → AreNumbersOf self.new (ds ++ d ∷ [])) }
    {
        let Some(next) = self.count.checked_add(1) else {
            return Err(OutOfMemory);
        };
        self.give(name)?;
        self.count = next;
        Ok(())
    }

    /// One item more.
    fn pass(&mut self, item: &Item) -> Result<(), OutOfMemory>
        ensures { OnOk result ((ps : List PureItem) → AreNumbersOf self.old (definitions_of ps)
            → AreNumbersOf self.new (definitions_of (ps ++ item_of item.now ∷ []))) }
    {
        match item {
            Item::Vars(_, _) => Ok(()),
            Item::Fun(f) => match &f.body {
                None => Ok(()),
                Some(_) => self.add(&f.name),
            },
        }
    }
}

/// The numbers of the functions that items define.
pub fn number_all(alloc: Global, items: &[Item]) -> Result<Numbers, OutOfMemory>
    ensures { IfOk result (λ numbers. AreNumbersOf numbers
        (definitions_of (map item_of items.now))) }
{
    let mut numbers = Numbers::new(alloc);
    for item in items {
        numbers.pass(item)?;
    }
    Ok(numbers)
}
