//! A sink over a writer of std.

ghost use Rattle.std.specs.Prelude.{◌≡◌, OnErr};
ghost use Rattle.bop_ends.specs.Ends.{AppendsPiece, HasCause, RaisedOnce};

use crate::faults::Faults;
use crate::{Failed, Sink};
use std::io::Write;

/// A sink that writes to a stream, a file or another writer. Each error of the writer is a fault,
/// and so is a write that takes no byte of a nonempty piece. It tells what its writer tells, and a
/// real stream tells nothing.
#[derive(Drop)]
pub struct RealSink<W: Write> {
    writer: W,
    faults: Faults,
}

impl<W: Write> RealSink<W> {
    ghost use Rattle.bop_ends.specs.RealSink.{real_sink_writer, real_sink_faults};

    pub fn new(writer: W) -> RealSink<W>
        ensures writer { real_sink_writer result ≡ writer }
        ensures faults { real_sink_faults result ≡ 0 }
    {
        RealSink {
            writer,
            faults: Faults::none(),
        }
    }
}

/// Writes a piece to its end. A write that takes nothing of it is a failure.
fn write_whole<W: Write>(writer: &mut W, piece: &[u8]) -> Result<(), Failed>
    ensures { AppendsPiece (W.contents writer.old) (W.contents writer.new) result piece.now }
{
    let mut rest = piece;
    while !rest.is_empty() {
        match writer.write(rest) {
            Ok(count) if count > 0 => rest = &rest[count..],
            _ => return Err(Failed),
        }
    }
    Ok(())
}

impl<W: Write> Sink for RealSink<W> {
    ghost use Rattle.bop_ends.specs.RealSink.{real_sink_writer, real_sink_faults};

    ghost content = { λ sink. W.contents (real_sink_writer sink) };

    ghost faults = { λ sink. real_sink_faults sink };

    fn append(&mut self, piece: &[u8]) -> Result<(), Failed>
        // What holds of every sink.
        ensures bytes { AppendsPiece (W.contents (real_sink_writer self.old))
            (W.contents (real_sink_writer self.new)) result piece.now }
        ensures cause { HasCause (real_sink_faults self.old) (real_sink_faults self.new) result }

        // A failure is counted once.
        ensures counted { OnErr result
            (RaisedOnce (real_sink_faults self.old) (real_sink_faults self.new)) }
    {
        let written = write_whole(&mut self.writer, piece);
        if written.is_err() {
            self.faults.raise();
        }
        written
    }
}
