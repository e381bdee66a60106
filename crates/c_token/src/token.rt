//! Tokens.

use c_tree::{CType, Name, Place};

/// What a token is.
#[derive(Debug, Drop)]
pub enum Kind {
    Name(Name),
    /// A reserved word, with its bytes.
    Reserved(Name),
    /// An integer constant: its type, `Int` or `Unsigned`, and its value.
    Number(CType, u32),
    /// A character constant, with its value, at most 255. Its type is `int`.
    Character(u32),
    /// An operator or a punctuation: its bytes, followed by zeros.
    Sign([u8; 3]),
    /// The end of the text.
    End,
}

/// A token, and the place of its first byte.
#[derive(Debug, Drop)]
pub struct Token {
    pub kind: Kind,
    pub place: Place,
}
