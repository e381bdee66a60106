//! A source over a reader.

use bop_ends::{Failed, RealSource, Source};
use std::io;
use std::io::Read;
use std::test::Fail;

/// Fails at its first read, and has nothing left then.
#[derive(Drop)]
struct Broken {
    told: bool,
}

impl Read for Broken {
    fn read(&mut self, _buf: &mut [u8]) -> io::Result<usize> {
        if self.told {
            return Ok(0);
        }
        self.told = true;
        Err(io::Error::from(io::ErrorKind::ConnectionReset))
    }
}

#[test]
fn a_source_over_a_reader_fails_where_it_does(rt: HostRuntime) -> Result<(), Fail> {
    let front: &[u8] = b"abcde";
    let mut source = RealSource::new(front.chain(Broken { told: false }));
    let wants: [Result<&[u8], Failed>; 5] = [Ok(b"abc"), Ok(b"de"), Err(Failed), Ok(b""), Ok(b"")];
    for (call, want) in wants.iter().enumerate() {
        let mut into = [0; 3];
        let got = source.read(&mut into).map(|count| &into[..count]);
        assert_eq!(rt; got, *want, "read {call}");
    }
    Ok(())
}
