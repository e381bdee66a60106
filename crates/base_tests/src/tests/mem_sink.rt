//! A sink in memory.

use bop_ends::{MemSink, OutOfMemory, Sink};
use std::test::Fail;

/// Whether each piece was taken.
fn put<K: Sink>(sink: &mut K, pieces: &[&[u8]; 3]) -> [bool; 3] {
    let mut taken = [false; 3];
    for i in 0..3 {
        taken[i] = sink.append(pieces[i]).is_ok();
    }
    taken
}

#[test]
fn a_sink_in_memory_fails_as_planned(rt: HostRuntime) -> Result<(), Fail> {
    let alloc = rt.alloc();
    let pieces: [&[u8]; 3] = [b"ab", b"cdefg", b"h"];
    let wants: [(usize, &[(u64, usize)], &[u8], [bool; 3]); 6] = [
        (8, &[], b"abcdefgh", [true, true, true]),
        (8, &[(0, 0)], b"cdefgh", [false, true, true]),
        (8, &[(1, 3)], b"abcdeh", [true, false, true]),
        (8, &[(1, 9), (1, 0)], b"abcdefgh", [true, false, true]),
        (5, &[], b"abcde", [true, false, false]),
        (4, &[(2, 0), (1, 1)], b"abc", [true, false, false]),
    ];
    for (room, fails, content, taken) in wants {
        let sink = MemSink::new(alloc, room, fails.to_vec(alloc)?);
        let mut sink = sink.ok().ok_or("no memory")?;
        assert_eq!(rt; put(&mut sink, &pieces), taken, "room {room}");
        assert_eq!(rt; sink.content(), content, "room {room}");
    }
    Ok(())
}

#[test]
fn a_room_without_memory_is_refused(rt: HostRuntime) -> Result<(), Fail> {
    let alloc = rt.alloc();
    let sink = MemSink::new(alloc, usize::MAX, Vec::new(alloc));
    assert!(rt; matches!(sink, Err(OutOfMemory)));
    Ok(())
}
