//! A shelf in memory, which fails as planned.

ghost use Rattle.std.specs.Prelude.{◌≡◌, ◌+◌, ◌-◌, ◌^◌, ◌≤◌, min, true, false, Err, IfOk, IsTrue, IsSome, IsNone, IsErrOf, IsOkUnless};
ghost use Rattle.std.specs.Option.{option_copied};
ghost use Rattle.bop_ends.specs.Files.{file_in};
ghost use Rattle.bop_ends.specs.Ends.{HasLoadCause, IsFront, RaisedOnce};

use crate::faults::Faults;
use crate::plan::is_planned;
use crate::{LoadFault, Shelf};
use std::alloc::Global;
use std::collections::BTreeMap;

/// A shelf that holds a map of files. Its loads are numbered from 0, and those that the plan lists
/// fail.
#[derive(Drop)]
pub struct MemShelf {
    alloc: Global,
    files: BTreeMap<String, Vec<u8>>,
    fails: Vec<u64>,
    calls: u64,
    faults: Faults,
}

impl MemShelf {
    ghost use Rattle.bop_ends.specs.MemShelf.{mem_shelf_file, mem_shelf_plan, mem_shelf_calls, mem_shelf_faults};

    /// A shelf with these files. It takes no memory.
    pub fn new(alloc: Global, files: BTreeMap<String, Vec<u8>>, fails: Vec<u64>) -> MemShelf
        ensures files { mem_shelf_file result ≡ file_in files }
        ensures plan { mem_shelf_plan result ≡ fails.items }
        ensures calls { mem_shelf_calls result ≡ 0 }
        ensures faults { mem_shelf_faults result ≡ 0 }
    {
        MemShelf {
            alloc,
            files,
            fails,
            calls: 0,
            faults: Faults::none(),
        }
    }

    /// The file of this name.
    pub fn file(&self, name: &str) -> Option<&[u8]>
        ensures { option_copied result ≡ mem_shelf_file self.now name.now }
    {
        self.files.get(name).map(|content| content.as_slice())
    }
}

impl Shelf for MemShelf {
    ghost use Rattle.bop_ends.specs.MemShelf.{mem_shelf_file, mem_shelf_faults, next_fails, TakesLoad};

    ghost tells = { λ _. true };

    ghost file = { mem_shelf_file };

    ghost faults = { λ shelf. mem_shelf_faults shelf };

    fn load(&mut self, alloc: Global, name: &str, most: usize) -> Result<Vec<u8>, LoadFault>
        // What holds of every shelf.
        ensures bytes { IfOk result
            (λ bytes. IsFront (mem_shelf_file self.old name.now) most bytes.items) }
        ensures files { mem_shelf_file self.new ≡ mem_shelf_file self.old }
        ensures cause { HasLoadCause (mem_shelf_faults self.old)
            (mem_shelf_faults self.new) result }

        // It fails where that is planned or no file has the name, and nowhere else.
        ensures planned { IsTrue (next_fails self.old) → result ≡ Err LoadFault.Failed }
        ensures absent { IsNone (mem_shelf_file self.old name.now) → result ≡ Err LoadFault.Failed }
        ensures unplanned { next_fails self.old ≡ false
            → IsSome (mem_shelf_file self.old name.now) → IsOkUnless result LoadFault.OutOfMemory }
        ensures call { TakesLoad self.old self.new }

        // A failure is counted once.
        ensures counted { IsErrOf result LoadFault.Failed
            → RaisedOnce (mem_shelf_faults self.old) (mem_shelf_faults self.new) }
    {
        let planned = is_planned(&self.fails, self.calls);
        self.calls = self.calls.saturating_add(1);
        if planned {
            self.faults.raise();
            return Err(LoadFault::Failed);
        }
        match self.files.get(name) {
            None => {
                self.faults.raise();
                Err(LoadFault::Failed)
            }
            Some(content) => {
                let front = most.min(content.len());
                content[..front]
                    .to_vec(alloc)
                    .map_err(|_| LoadFault::OutOfMemory)
            }
        }
    }
}
