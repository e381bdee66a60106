//! A shelf over the files of the machine.

ghost use Rattle.std.specs.Prelude.{◌≡◌, None, false, take, IfOk, IfSome, IsErrOf};
ghost use Rattle.bop_ends.specs.Ends.{HasLoadCause, RaisedOnce};

use crate::faults::Faults;
use crate::{LoadFault, Shelf};
use std::alloc::Global;
use std::fs::File;
use std::io::{self, ErrorKind, Read};
use std::rt::Files;

/// The files of the machine, by their paths. Each error of opening and reading is a fault, but for
/// want of memory. It tells nothing.
#[derive(Drop)]
pub struct RealShelf<'a, F: Files> {
    rt: &'a F,
    faults: Faults,
}

impl<'a, F: Files> RealShelf<'a, F> {
    ghost use Rattle.bop_ends.specs.RealShelf.{real_shelf_faults};

    pub fn new(rt: &'a F) -> RealShelf<'a, F>
        ensures { real_shelf_faults result ≡ 0 }
    {
        RealShelf {
            rt,
            faults: Faults::none(),
        }
    }
}

/// Reads the first bytes that a reader has.
fn read_front<R: Read + Drop>(alloc: Global, reader: R, most: usize) -> io::Result<Vec<u8>>
    ensures { IfOk result
        (λ bytes. IfSome (R.remaining reader) (λ left. bytes.items ≡ take most left)) }
{
    let mut bytes = Vec::new(alloc);
    reader.take(most as u64).read_to_end(&mut bytes)?;
    Ok(bytes)
}

fn load_file<F: Files>(rt: &F, alloc: Global, name: &str, most: usize) -> io::Result<Vec<u8>> {
    read_front(alloc, File::open(rt, name)?, most)
}

impl<F: Files> Shelf for RealShelf<'_, F> {
    ghost use Rattle.bop_ends.specs.RealShelf.{real_shelf_faults};

    ghost tells = { λ _. false };

    ghost file = { λ _ _. None };

    ghost faults = { λ shelf. real_shelf_faults shelf };

    fn load(&mut self, alloc: Global, name: &str, most: usize) -> Result<Vec<u8>, LoadFault>
        // What holds of every shelf that tells nothing.
        ensures cause { HasLoadCause (real_shelf_faults self.old)
            (real_shelf_faults self.new) result }

        // A failure is counted once.
        ensures counted { IsErrOf result LoadFault.Failed
            → RaisedOnce (real_shelf_faults self.old) (real_shelf_faults self.new) }
    {
        match load_file(self.rt, alloc, name, most) {
            Ok(bytes) => Ok(bytes),
            Err(error) if error.kind() == ErrorKind::OutOfMemory => Err(LoadFault::OutOfMemory),
            Err(_) => {
                self.faults.raise();
                Err(LoadFault::Failed)
            }
        }
    }
}
