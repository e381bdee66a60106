//! A sink over a writer.

use bop_ends::{Failed, RealSink, Sink};
use std::io;
use std::io::Write;
use std::test::Fail;

/// Takes at most 2 bytes at once. When it is full it takes none, and then fails.
#[derive(Drop)]
struct Narrow {
    content: Vec<u8>,
    room: usize,
    told_full: bool,
}

impl Write for Narrow {
    fn write(&mut self, buf: &[u8]) -> io::Result<usize> {
        if self.told_full {
            return Err(io::Error::from(io::ErrorKind::StorageFull));
        }
        let room = self.room.saturating_sub(self.content.len());
        let count = buf.len().min(room).min(2);
        self.told_full = room == 0;
        self.content.extend_from_slice(&buf[..count])?;
        Ok(count)
    }

    fn flush(&mut self) -> io::Result<()> {
        Ok(())
    }
}

#[test]
fn a_sink_over_a_writer_writes_each_piece_whole(rt: HostRuntime) -> Result<(), Fail> {
    let mut writer = Narrow {
        content: Vec::new(rt.alloc()),
        room: 8,
        told_full: false,
    };
    let mut sink = RealSink::new(&mut writer);
    assert_eq!(rt; sink.append(b"abcde"), Ok(()));
    assert_eq!(rt; sink.append(b""), Ok(()));
    assert_eq!(rt; sink.append(b"fghij"), Err(Failed), "no byte is taken");
    assert_eq!(rt; sink.append(b"k"), Err(Failed), "the writer fails");
    assert_eq!(rt; sink.append(b""), Ok(()));
    drop(sink);
    assert_eq!(rt; writer.content.as_slice(), b"abcdefgh".as_slice());
    Ok(())
}
