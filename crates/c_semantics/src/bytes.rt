//! The bytes of the memory, each a number or not written.

ghost use Rattle.std.specs.Prelude.{◌≡◌, ◌+◌, ◌-◌, ◌*◌, ◌^◌, ◌<◌, ◌≤◌, ℕ, List, Option, IfOk, length, min};
ghost use Rattle.c_semantics.specs.Contents.{unwritten};
ghost use Rattle.c_semantics.specs.Memory.{number, range, with_byte, with_bytes, blank};

use bop_bits::{DATA_FROM, MEMORY_BYTES};
use c_tree::OutOfMemory;
use std::alloc::Global;

/// So many bytes that aren't written.
pub fn unwritten_bytes(alloc: Global, count: usize) -> Result<Vec<Option<u8>>, OutOfMemory>
    ensures cells { IfOk result (λ cells. length cells.items ≡ count) }
    ensures unwritten { IfOk result (λ cells. cells.items ≡ unwritten count) }
{
    Ok(vec![in alloc; None; count]?)
}

/// Where the byte at an address stands. One below the memory stands for the first.
fn index(at: u64) -> usize
    ensures { result ≡ at - DATA_FROM }
{
    at.saturating_sub(u64::from(DATA_FROM)) as usize
}

/// The bytes from an address on, as far as the memory has them.
pub fn range(cells: &[Option<u8>], at: u64, size: usize) -> &[Option<u8>]
    ensures { result.now ≡ range at size cells.now }
{
    let from = index(at).min(cells.len());
    let count = size.min(cells.len() - from);
    &cells[from..from + count]
}

/// The number of a byte and of those above it.
fn with_lowest(byte: u8, above: u32) -> u32
    requires { above < 2 ^ 24 }
    ensures number { result ≡ byte + 256 * above }
    ensures byte { byte < 256 }
{
    u32::from(byte) + 256 * above
}

/// Bytes as one number, the lowest first, where each was written.
pub fn number(cells: &[Option<u8>]) -> Option<u32>
    requires { length cells.now ≤ 4 }
    ensures { result ≡ number cells.now }
{
    match cells {
        [Some(a), Some(b), Some(c), Some(d)] => Some(u32::from_le_bytes([*a, *b, *c, *d])),
        _ => number_of_few(cells),
    }
}

/// The same of any bytes, and slower.
fn number_of_few(cells: &[Option<u8>]) -> Option<u32>
    requires { length cells.now ≤ 4 }
    ensures { result ≡ number cells.now }
{
    let mut number = 0;
    for i in (0..cells.len()).rev() {
        number = with_lowest(cells[i]?, number);
    }
    Some(number)
}

/// Makes a byte what it is to hold. One behind the memory is left out.
fn put(cells: &mut [Option<u8>], at: u64, byte: Option<u8>)
    ensures { cells.new ≡ with_byte at byte cells.old }
{
    let index = index(at);
    if index < cells.len() {
        cells[index] = byte;
    }
}

/// How many of so many bytes from an address on stand before the end of the memory.
fn count_before_end(at: u64, size: u64) -> u64
    ensures { result ≡ min size (DATA_FROM + MEMORY_BYTES - at) }
{
    let end = u64::from(DATA_FROM) + MEMORY_BYTES as u64;
    size.min(end.saturating_sub(at))
}

/// Writes bytes one behind the other.
pub fn fill(cells: &mut [Option<u8>], at: u64, bytes: &[u8])
    requires { length cells.old ≤ MEMORY_BYTES }
    ensures { cells.new ≡ with_bytes at bytes.now cells.old }
{
    for offset in 0..count_before_end(at, bytes.len() as u64) {
        put(cells, at + offset, Some(bytes[offset as usize]));
    }
}

/// Makes bytes not written.
pub fn blank(cells: &mut [Option<u8>], at: u64, size: u64)
    requires { length cells.old ≤ MEMORY_BYTES }
    ensures { cells.new ≡ blank at size cells.old }
{
    for offset in 0..count_before_end(at, size) {
        put(cells, at + offset, None);
    }
}
