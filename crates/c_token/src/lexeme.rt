//! The token at the front of a text.

ghost use Rattle.std.specs.Prelude.{◌≡◌, ◌<◌, false, length};
ghost use Rattle.c_token.specs.Comments.{opens_comment};
ghost use Rattle.c_token.specs.private.Lexemes.{IsLexeme, fault_at};

use crate::byte::is_word;
use crate::character::character;
use crate::fault::TokenFault;
use crate::number::{Number, NumberFault, number_of};
use crate::sign::sign_len;
use crate::word::word_len;
use c_tree::Place;

/// A token of the text, apart from its bytes.
#[derive(Clone, Copy)]
pub enum Lexeme {
    Word,
    Number(Number),
    Character(u8),
    Sign,
}

/// Why no token stands next.
#[derive(Clone, Copy)]
pub enum BadToken {
    /// The byte begins none.
    Byte,
    /// The word that begins with a digit is no integer constant.
    Number(NumberFault),
    /// No character constant stands at the quote.
    Character,
}

impl BadToken {
    pub fn at(self, place: Place) -> TokenFault
        ensures { result ≡ fault_at self place }
    {
        match self {
            BadToken::Byte => TokenFault::BadByte(place),
            BadToken::Number(NumberFault::Malformed) => TokenFault::BadLiteral(place),
            BadToken::Number(NumberFault::Large) => TokenFault::TooLarge(place),
            BadToken::Character => TokenFault::BadLiteral(place),
        }
    }
}

/// The token at the front of what opens no comment, and how many bytes it takes.
pub fn lexeme_at(rest: &[u8]) -> Result<(Lexeme, usize), BadToken>
    requires some { 0 < length rest.now }
    requires no_comment { opens_comment rest.now ≡ false }
    ensures { IsLexeme rest.now result }
{
    let first = rest[0];
    if first == b'\'' {
        match character(rest) {
            Some((value, len)) => Ok((Lexeme::Character(value), len)),
            None => Err(BadToken::Character),
        }
    } else if first.is_ascii_digit() {
        let len = word_len(rest);
        match number_of(&rest[..len]) {
            Ok(number) => Ok((Lexeme::Number(number), len)),
            Err(fault) => Err(BadToken::Number(fault)),
        }
    } else if is_word(first) {
        Ok((Lexeme::Word, word_len(rest)))
    } else {
        let len = sign_len(rest);
        if len == 0 {
            Err(BadToken::Byte)
        } else {
            Ok((Lexeme::Sign, len))
        }
    }
}
