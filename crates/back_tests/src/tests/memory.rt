//! What a memory gives and takes.

use bop_bits::{DATA_FROM, MEMORY_BYTES};
use c_semantics::{Memory, Object};
use c_tree::Undefined;
use std::test::Fail;

const BYTES: u32 = MEMORY_BYTES as u32;

/// A call, by offsets from the memory's first byte, with what it is to answer.
#[derive(Clone, Copy, Debug)]
enum Call {
    Open(u32, u64),
    Close(usize),
    Blank(u32, u64),
    Fill(u32, [u8; 3]),
    ReadByte(u32, Result<u32, Undefined>),
    ReadWord(u32, Result<u32, Undefined>),
    WriteByte(u32, u32, Result<(), Undefined>),
    WriteWord(u32, u32, Result<(), Undefined>),
    Along(u32, u32, bool),
    Below(u32, bool),
}

fn address(offset: u32) -> u64 {
    u64::from(DATA_FROM) + u64::from(offset)
}

fn signed_address(offset: u32) -> i64 {
    i64::from(DATA_FROM) + i64::from(offset)
}

const CALLS: [Call; 63] = [
    // Bytes that aren't written, in an object and outside.
    Call::ReadWord(0, Err(Undefined::Access)),
    Call::Open(0, 4),
    Call::ReadWord(0, Err(Undefined::Indeterminate)),
    Call::ReadByte(4, Err(Undefined::Access)),
    // The lowest byte comes first.
    Call::WriteWord(0, 0x0403_0201, Ok(())),
    Call::ReadWord(0, Ok(0x0403_0201)),
    Call::ReadByte(0, Ok(1)),
    Call::ReadByte(3, Ok(4)),
    Call::WriteByte(1, 0x1ff, Ok(())),
    Call::ReadByte(1, Ok(0xff)),
    Call::ReadWord(0, Ok(0x0403_ff01)),
    // An address that isn't aligned, and bytes of two objects.
    Call::Open(4, 8),
    Call::Open(12, 2),
    Call::Open(14, 2),
    Call::ReadWord(4, Err(Undefined::Indeterminate)),
    Call::ReadWord(5, Err(Undefined::Access)),
    Call::WriteWord(6, 7, Err(Undefined::Access)),
    Call::ReadByte(6, Err(Undefined::Indeterminate)),
    Call::ReadWord(12, Err(Undefined::Access)),
    Call::WriteWord(12, 7, Err(Undefined::Access)),
    Call::WriteByte(16, 7, Err(Undefined::Access)),
    // Bytes are written, and made ones that aren't.
    Call::Fill(4, [7, 8, 9]),
    Call::ReadWord(4, Err(Undefined::Indeterminate)),
    Call::ReadByte(6, Ok(9)),
    Call::Fill(7, [1, 2, 3]),
    Call::ReadWord(4, Ok(0x0109_0807)),
    Call::ReadByte(9, Ok(3)),
    Call::Blank(5, 2),
    Call::ReadByte(4, Ok(7)),
    Call::ReadByte(6, Err(Undefined::Indeterminate)),
    Call::ReadByte(7, Ok(1)),
    Call::ReadWord(4, Err(Undefined::Indeterminate)),
    // An object ends, and its bytes stay.
    Call::Close(1),
    Call::ReadByte(4, Err(Undefined::Access)),
    Call::ReadWord(0, Ok(0x0403_ff01)),
    Call::Open(4, 4),
    Call::ReadByte(4, Ok(7)),
    // Two addresses along one object, its end included.
    Call::Along(0, 4, true),
    Call::Along(4, 0, true),
    Call::Along(4, 8, true),
    Call::Along(8, 8, true),
    Call::Along(0, 5, false),
    Call::Along(8, 9, false),
    Call::Along(9, 9, false),
    Call::Below(0, false),
    // An object that has bytes of an older one, and one that reaches past the memory.
    Call::Open(6, 6),
    Call::Open(BYTES - 2, 4),
    Call::WriteWord(8, 5, Ok(())),
    Call::ReadWord(8, Ok(5)),
    Call::ReadByte(7, Ok(1)),
    Call::Along(6, 12, true),
    Call::Along(4, 12, false),
    Call::WriteByte(BYTES - 1, 9, Ok(())),
    Call::ReadByte(BYTES - 1, Ok(9)),
    Call::ReadByte(BYTES - 3, Err(Undefined::Access)),
    // An object without bytes.
    Call::Open(20, 0),
    Call::ReadByte(20, Err(Undefined::Access)),
    Call::Along(20, 20, true),
    // What the newest held is as before.
    Call::Close(2),
    Call::Along(20, 20, false),
    Call::ReadByte(7, Ok(1)),
    Call::ReadWord(8, Err(Undefined::Access)),
    Call::ReadByte(BYTES - 1, Err(Undefined::Access)),
];

#[test]
fn a_memory_gives_what_was_written(rt: HostRuntime) -> Result<(), Fail> {
    let mut memory = Memory::new(rt.alloc())?;
    for call in CALLS {
        match call {
            Call::Open(at, size) => memory.open(Object {
                address: address(at),
                size,
            })?,
            Call::Close(count) => memory.close(count),
            Call::Blank(at, size) => memory.blank(address(at), size),
            Call::Fill(at, bytes) => memory.fill(address(at), &bytes),
            Call::ReadByte(at, want) => {
                assert_eq!(rt; memory.read_byte(address(at)), want, "{call:?}");
            }
            Call::ReadWord(at, want) => {
                assert_eq!(rt; memory.read_word(address(at)), want, "{call:?}");
            }
            Call::WriteByte(at, value, want) => {
                assert_eq!(rt; memory.write_byte(address(at), value), want, "{call:?}");
            }
            Call::WriteWord(at, value, want) => {
                assert_eq!(rt; memory.write_word(address(at), value), want, "{call:?}");
            }
            Call::Along(y, z, want) => {
                assert_eq!(rt;
                    memory.along(address(y), signed_address(z)),
                    want,
                    "{call:?}"
                );
            }
            Call::Below(y, want) => assert_eq!(rt; memory.along(address(y), -1), want, "{call:?}"),
        }
    }
    assert_eq!(rt; memory.live_count(), 2);
    Ok(())
}
