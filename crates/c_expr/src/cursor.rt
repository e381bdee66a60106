//! Where a parser stands.

ghost use Rattle.std.specs.Prelude.{◌≡◌, ◌<◌, ◌≤◌, IfOk, true};
ghost use Rattle.c_expr.specs.declared.level.TheConstants.{LEVELS};
ghost use Rattle.c_expr.specs.Next as next;

use crate::fault::ParseFault;
use crate::level::LEVELS;
use c_token::{Kind, Token};
use c_tree::Place;

/// What is left of a text, and how deep it may still nest.
#[derive(Drop)]
pub struct Cursor<'a> {
    /// The tokens that are left. If there are any, the last is the end of the text.
    pub tokens: &'a [Token],
    /// How many levels may still be added, and one more: at 0 any token is too deep.
    pub room: u32,
    ghost ended: { next.ends tokens.now ≡ true },
    ghost bounded: { room ≤ LEVELS },
}

impl<'a> Cursor<'a> {
    ghost use Rattle.c_token.specs.declared.token.Kind.TheVariants as k;
    ghost use Rattle.c_expr.specs.Reads.{ReadsInPlace};
    ghost use Rattle.c_expr.specs.Spelled.{same};

    /// What the next token is, if there is one.
    pub fn kind(&self) -> Option<&'a Kind>
        ensures { next.seen result ≡ next.kind_of self.now.tokens.now }
    {
        match self.tokens {
            [] => None,
            [first, ..] => Some(&first.kind),
        }
    }

    /// The place of the next token.
    pub fn place(&self) -> Place
        ensures { result ≡ next.place_of self.now.tokens.now }
    {
        match self.tokens {
            [] => Place { line: 0, column: 0 },
            [first, ..] => first.place,
        }
    }

    /// Whether the next token is this sign.
    pub fn is_sign(&self, sign: [u8; 3]) -> bool
        ensures { result ≡ same (next.kind_of self.now.tokens.now) (k.Sign sign) }
    {
        match self.kind() {
            Some(Kind::Sign(other)) => *other == sign,
            _ => false,
        }
    }

    /// Whether the next token is this reserved word.
    pub fn is_word(&self, word: &str) -> bool
        ensures { result ≡ same (next.kind_of self.now.tokens.now) (k.Reserved word.now) }
    {
        match self.kind() {
            Some(Kind::Reserved(other)) => other.get() == word.as_bytes(),
            _ => false,
        }
    }

    /// The fault of a next token that is out of place.
    pub fn unexpected(&self) -> ParseFault
        ensures { result ≡ next.unexpected self.now.tokens.now }
    {
        ParseFault::Unexpected(self.place())
    }

    /// Takes the next token.
    pub fn take(&mut self) -> Result<&'a Token, ParseFault>
        ensures read { ReadsInPlace (λ x. x.now) result self.old self.new next.take }
        ensures room { IfOk result (λ _. 0 < self.old.room) }
    {
        match self.tokens {
            [] => Err(self.unexpected()),
            [first, ..] if self.room == 0 => Err(ParseFault::TooDeep(first.place)),
            [first, after @ ..] => {
                self.tokens = after;
                Ok(first)
            }
        }
    }

    /// Takes this sign.
    pub fn expect(&mut self, sign: [u8; 3]) -> Result<&'a Token, ParseFault>
        ensures { ReadsInPlace (λ x. x.now) result self.old self.new (next.expect (k.Sign sign)) }
    {
        if self.is_sign(sign) {
            self.take()
        } else {
            Err(self.unexpected())
        }
    }

    /// Takes this reserved word.
    pub fn expect_word(&mut self, word: &str) -> Result<&'a Token, ParseFault>
        ensures { ReadsInPlace (λ x. x.now) result self.old self.new
            (next.expect (k.Reserved word.now)) }
    {
        if self.is_word(word) {
            self.take()
        } else {
            Err(self.unexpected())
        }
    }
}
