//! The tokens of a C text, with their places, or the first fault with its place.
#![tactic(auto)]

mod blank;
mod byte;
mod character;
mod comment;
mod directive;
mod fault;
mod laws;
mod lexeme;
mod limits;
mod number;
mod reader;
mod sign;
mod spot;
mod tail;
mod token;
mod word;

ghost use Rattle.std.specs.Prelude.{◌≤◌, ◌+◌, All, IfOk, length};
ghost use Rattle.c_token.specs.Text.{Answers};
ghost use Rattle.c_token.specs.Tokens.{IsProper, EndsOnce};
ghost use Rattle.c_token.specs.declared.limits.TheConstants.{TEXT_BYTES};

pub use fault::TokenFault;
pub use laws::{limits_in_numbers, one_answer};
pub use limits::TEXT_BYTES;
use reader::Reader;
use std::alloc::Global;
pub use token::{Kind, Token};

/// The tokens of a text, the last one `End`, which stands where the text ends; or the
/// first fault from the left (C11 6.4 and 6.10).
pub fn tokens(alloc: Global, text: &[u8]) -> Result<Vec<Token>, TokenFault>
    requires { length text.now ≤ TEXT_BYTES }
    ensures answer { Answers text.now result }
    ensures proper { IfOk result (λ tokens. All IsProper tokens.items) }
    ensures count { IfOk result (λ tokens. length tokens.items ≤ length text.now + 1) }
    ensures end { IfOk result (λ tokens. EndsOnce tokens.items) }
{
    let mut reader = Reader::new(alloc, text);
    while !reader.at_end() {
        reader.read_piece()?;
    }
    reader.finish()
}
