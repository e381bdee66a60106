//! The reader of a text.

ghost use Rattle.std.specs.Prelude.{◌≡◌, ◌<◌, ◌≤◌, ◌++◌, ◌↔◌, ◌∷◌, [], true, false, length, IsTrue, slice_index, MatchResult};

use crate::byte::is_separator;
use crate::comment::{comment_len, line_len, opens_comment};
use crate::directive::{Directive, directive_of};
use crate::fault::TokenFault;
use crate::lexeme::{Lexeme, lexeme_at};
use crate::number::Number;
use crate::sign::padded;
use crate::spot::Spot;
use crate::token::{Kind, Token};
use crate::word::is_reserved;
use c_tree::Name;
use std::alloc::Global;
use std::collections::BTreeMap;

/// A text that is read up to a spot.
#[derive(Drop)]
pub struct Reader<'a> {
    alloc: Global,
    /// What isn't read yet.
    rest: &'a [u8],
    spot: Spot,
    /// The names that lines before have defined.
    defines: BTreeMap<&'a [u8], Number>,
    found: Vec<Token>,
}

impl<'a> Reader<'a> {
    ghost use Rattle.c_token.specs.Bytes.{is_separator};
    ghost use Rattle.c_token.specs.Comments.{opens_comment};
    ghost use Rattle.c_token.specs.Directives.{begins_directive};
    ghost use Rattle.c_token.specs.Pieces.{replaced};
    ghost use Rattle.c_token.specs.private.Lexemes.{kind_of};
    ghost use Rattle.c_token.specs.private.Readers.{StepOf, HasRoom, HasRead, Skips, names_of};
    ghost use Rattle.c_token.specs.declared.limits.TheConstants.{TEXT_BYTES};

    pub fn new(alloc: Global, text: &'a [u8]) -> Self
        requires { length text.now ≤ TEXT_BYTES }
        ensures { HasRead text.now result }
    {
        Reader {
            alloc,
            rest: text,
            spot: Spot::beginning(),
            defines: BTreeMap::new(alloc),
            found: Vec::new(alloc),
        }
    }

    pub fn at_end(&self) -> bool
        ensures { IsTrue result ↔ (length self.now.rest.now ≡ 0) }
    {
        self.rest.is_empty()
    }

    /// Reads the piece that stands next.
    pub fn read_piece(&mut self) -> Result<(), TokenFault>
        requires room { HasRoom self.old }
        requires some { 0 < length self.old.rest.now }
        ensures { StepOf self.old self.new result }
    {
        let rest = self.rest;
        if is_separator(rest[0]) {
            self.skip(1);
            Ok(())
        } else if opens_comment(rest) {
            match comment_len(rest) {
                Some(len) => {
                    self.skip(len);
                    Ok(())
                }
                None => Err(TokenFault::OpenComment(self.spot.place)),
            }
        } else if rest[0] == b'#' && self.spot.fresh {
            self.read_line()
        } else {
            self.read_token()
        }
    }

    /// Reads a line that begins with `#`.
    fn read_line(&mut self) -> Result<(), TokenFault>
        requires room { HasRoom self.old }
        requires begins { begins_directive self.old.spot self.old.rest.now ≡ true }
        ensures { StepOf self.old self.new result }
    {
        let len = line_len(self.rest);
        match directive_of(&self.rest[..len]) {
            Some(Directive::Include) => {
                self.skip(len);
                Ok(())
            }
            Some(Directive::Define(name, number)) => {
                if self.defines.contains_key(&name) {
                    return Err(TokenFault::BadLine(self.spot.place));
                }
                self.defines.insert(name, number)?;
                self.skip(len);
                Ok(())
            }
            None => Err(TokenFault::BadLine(self.spot.place)),
        }
    }

    /// Reads a token.
    fn read_token(&mut self) -> Result<(), TokenFault>
        requires room { HasRoom self.old }
        requires some { 0 < length self.old.rest.now }
        requires no_separator { is_separator (slice_index self.old.rest.now 0) ≡ false }
        requires no_comment { opens_comment self.old.rest.now ≡ false }
        requires no_line { begins_directive self.old.spot self.old.rest.now ≡ false }
        ensures { StepOf self.old self.new result }
    {
        let (lexeme, len) = match lexeme_at(self.rest) {
            Ok(found) => found,
            Err(fault) => return Err(fault.at(self.spot.place)),
        };
        let kind = self.kind_of(lexeme, &self.rest[..len])?;
        self.found.push(Token {
            kind,
            place: self.spot.place,
        })?;
        self.skip(len);
        Ok(())
    }

    /// What a lexeme of these bytes is read as.
    fn kind_of(&self, lexeme: Lexeme, bytes: &'a [u8]) -> Result<Kind, TokenFault>
        ensures { MatchResult result
            (λ kind. kind ≡ replaced (names_of self.now.defines) (kind_of lexeme bytes.now))
            (λ e. e ≡ TokenFault.OutOfMemory) }
    {
        Ok(match lexeme {
            Lexeme::Word => {
                if is_reserved(bytes) {
                    Kind::Reserved(Name::of(bytes.to_vec(self.alloc)?))
                } else {
                    match self.defines.get(&bytes) {
                        Some(number) => number.kind(),
                        None => Kind::Name(Name::of(bytes.to_vec(self.alloc)?)),
                    }
                }
            }
            Lexeme::Number(number) => number.kind(),
            Lexeme::Character(value) => Kind::Character(u32::from(value)),
            Lexeme::Sign => Kind::Sign(padded(bytes)),
        })
    }

    /// Goes on behind the next `len` bytes.
    fn skip(&mut self, len: usize)
        requires room { HasRoom self.old }
        requires in_range { len ≤ length self.old.rest.now }
        ensures { Skips len self.old self.new }
    {
        self.spot = self.spot.past(&self.rest[..len]);
        self.rest = &self.rest[len..];
    }

    /// The tokens of a text that is read to its end.
    pub fn finish(self) -> Result<Vec<Token>, TokenFault>
        ensures { MatchResult result
            (λ v. v.items ≡ self.entry.found.items
            ++ record { kind = Kind.End; place = self.entry.spot.place } ∷ [])
            (λ e. e ≡ TokenFault.OutOfMemory) }
    {
        let Reader {
            mut found,
            spot,
            ..
        } = self;
        found.push(Token {
            kind: Kind::End,
            place: spot.place,
        })?;
        Ok(found)
    }
}
