//! A source over a reader of std.

ghost use Rattle.std.specs.Prelude.{◌≡◌, OnErr};
ghost use Rattle.std.specs.Io.{ReadsAtMost};
ghost use Rattle.std.specs.Io.KnownBytes.{ReadConsumes};
ghost use Rattle.bop_ends.specs.Ends.{HasCause, RaisedOnce};

use crate::faults::Faults;
use crate::{Failed, Source};
use std::io::Read;

/// A source that reads a stream, a file or another reader. Each error of the reader is a fault. It
/// tells what its reader tells, and a real stream tells nothing.
#[derive(Drop)]
pub struct RealSource<R: Read> {
    reader: R,
    faults: Faults,
}

impl<R: Read> RealSource<R> {
    ghost use Rattle.bop_ends.specs.RealSource.{real_source_reader, real_source_faults};

    pub fn new(reader: R) -> RealSource<R>
        ensures reader { real_source_reader result ≡ reader }
        ensures faults { real_source_faults result ≡ 0 }
    {
        RealSource {
            reader,
            faults: Faults::none(),
        }
    }
}

impl<R: Read> Source for RealSource<R> {
    ghost use Rattle.bop_ends.specs.RealSource.{real_source_reader, real_source_faults};

    ghost left = { λ source. R.remaining (real_source_reader source) };

    ghost faults = { λ source. real_source_faults source };

    fn read(&mut self, into: &mut [u8]) -> Result<usize, Failed>
        // What holds of every source.
        ensures bound { ReadsAtMost result into.new }
        ensures bytes { ReadConsumes (R.remaining (real_source_reader self.old))
            (R.remaining (real_source_reader self.new)) result into.new }
        ensures cause { HasCause (real_source_faults self.old)
            (real_source_faults self.new) result }

        // A failure is counted once.
        ensures counted { OnErr result
            (RaisedOnce (real_source_faults self.old) (real_source_faults self.new)) }
    {
        match self.reader.read(into) {
            Ok(count) => Ok(count),
            Err(_) => {
                self.faults.raise();
                Err(Failed)
            }
        }
    }
}
