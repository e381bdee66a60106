//! A source in memory.

use bop_ends::{MemSource, Source};
use std::test::Fail;

/// How many bytes each read gave.
fn counts<S: Source>(source: &mut S, into: &mut [u8]) -> [Option<usize>; 4] {
    let mut counts = [None; 4];
    for i in 0..4 {
        counts[i] = source.read(into).ok();
    }
    counts
}

#[test]
fn a_source_in_memory_fails_as_planned(rt: HostRuntime) -> Result<(), Fail> {
    let alloc = rt.alloc();
    let wants: [(usize, &[u64], [Option<usize>; 4], &[u8], &[u8]); 7] = [
        (9, &[], [Some(6), Some(0), Some(0), Some(0)], b"abcdef", b""),
        (4, &[], [Some(4), Some(2), Some(0), Some(0)], b"efcd..", b""),
        (4, &[], [Some(3), Some(3), Some(0), Some(0)], b"def", b""),
        (1, &[], [Some(1), Some(1), Some(1), Some(1)], b"d.", b"ef"),
        (9, &[], [Some(0), Some(0), Some(0), Some(0)], b"", b"abcdef"),
        (4, &[0, 2], [None, Some(4), None, Some(2)], b"efcd.", b""),
        (5, &[3, 1, 1], [Some(2), None, Some(2), None], b"cd", b"ef"),
    ];
    for (piece, fails, given, buffer, left) in wants {
        let content = b"abcdef".to_vec(alloc)?;
        let mut source = MemSource::new(content, piece, fails.to_vec(alloc)?);
        let mut into = vec![in alloc; b'.'; buffer.len()]?;
        assert_eq!(rt; counts(&mut source, &mut into), given, "piece {piece}");
        assert_eq!(rt; into.as_slice(), buffer, "piece {piece}");
        assert_eq!(rt; source.left(), left, "piece {piece}");
    }
    Ok(())
}
