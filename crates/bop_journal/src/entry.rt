//! Entries.

/// An event of a book, as far as it must be known to be played again: a task by its number, the
/// understudy's win and an advance by their steps.
#[derive(Clone, Copy, Debug, PartialEq, Eq)]
pub enum Entry {
    Group,
    Go(u8),
    Miss(u8),
    Drop(u8),
    Decide,
    Win(u64),
    Advance(u64),
}
