//! Conflicts.

/// Why a record can't be committed. Where it says two values, what was seen comes first, and then
/// what is true now.
#[derive(Clone, Copy, Debug, PartialEq, Eq)]
pub enum Conflict {
    /// The pc.
    Pc(u32, u32),
    /// A register, by its number.
    Register(u8, u32, u32),
    /// The input's cursor.
    Cursor(u32, u32),
    /// A shared page has changed, by its number.
    Page(u32),
    /// A private byte has changed, by its address.
    Byte(u32),
    /// The byte at an address has another value.
    Value(u32, u8, u8),
    /// It has another value although nothing has changed.
    Stale(u32, u8, u8),
}
