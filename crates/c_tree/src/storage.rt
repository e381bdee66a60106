//! Storage durations of variables.

/// How long a variable lives (C11 6.2.4): as long as the program, or as long as its block is executed.
#[derive(Clone, Copy, Debug, PartialEq, Eq)]
pub enum Storage {
    Static,
    Automatic,
}
