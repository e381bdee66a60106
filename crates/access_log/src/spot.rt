//! What a step can read or write.

/// A register, the input's cursor, or the byte at an address of data or stack.
#[derive(Clone, Copy, Debug, PartialEq, Eq)]
pub enum Spot {
    Register(u8),
    Cursor,
    Byte(u32),
}
