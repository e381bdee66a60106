//! The three forms of line that begin with `#`.

ghost use Rattle.std.specs.Prelude.{◌≡◌, ◌<◌, ◌++◌, ◌≢◌, ◌&&◌, ℕ, List, Option, MatchBool, MatchOption, length, not, slice_index};
ghost use Rattle.std.specs.Char.{is_ascii_digit};
ghost use Rattle.c_token.specs.ReservedWords.{is_reserved};
ghost use Rattle.c_token.specs.Directives.{IsInclude};
ghost use Rattle.c_token.specs.private.Lines.{SaysNothing, SaysOnly, DefinesNothing, DefinesOnly};
ghost use Rattle.c_token.specs.private.Readers.{said_by};

use crate::blank::{after_blanks, word_behind_blank};
use crate::number::{Number, number_of};
use crate::tail::is_tail;
use crate::word::is_reserved;

/// What a line that begins with `#` says.
pub enum Directive<'a> {
    Include,
    Define(&'a [u8], Number),
}

/// What a whole line says, from its `#` to before its LF.
pub fn directive_of(line: &[u8]) -> Option<Directive<'_>>
    requires { slice_index line.now 0 ≡ 35 }
    ensures { MatchOption result (SaysNothing line.now) (λ d. SaysOnly line.now (said_by d)) }
{
    let rest = after_blanks(&line[1..]);
    if let Some(rest) = behind(rest, b"include") {
        return if is_include(rest) {
            Some(Directive::Include)
        } else {
            None
        };
    }
    let rest = behind(rest, b"define")?;
    let (name, number) = define_of(rest)?;
    Some(Directive::Define(name, number))
}

/// What stands behind a front.
fn behind<'a>(text: &'a [u8], front: &[u8]) -> Option<&'a [u8]>
    ensures { MatchOption result ((rest : List ℕ) → text.now ≢ front.now ++ rest)
        (λ x. text.now ≡ front.now ++ x.now) }
{
    text.strip_prefix(front)
}

fn is_include(rest: &[u8]) -> bool
    ensures { MatchBool result (IsInclude rest.now) (IsInclude rest.now → ⊥) }
{
    let rest = after_blanks(rest);
    match behind(rest, b"<stdio.h>") {
        Some(tail) => is_tail(tail),
        None => match behind(rest, b"\"bop.h\"") {
            Some(tail) => is_tail(tail),
            None => false,
        },
    }
}

fn define_of(rest: &[u8]) -> Option<(&[u8], Number)>
    ensures { MatchOption result (DefinesNothing rest.now)
        (λ x. DefinesOnly rest.now (x.0.now, x.1)) }
{
    let (name, rest) = word_behind_blank(rest)?;
    let (integer, tail) = word_behind_blank(rest)?;
    if !is_name(name) {
        return None;
    }
    if !is_tail(tail) {
        return None;
    }
    match number_of(integer) {
        Ok(number) => Some((name, number)),
        Err(_) => None,
    }
}

/// A word is a name that isn't reserved.
fn is_name(word: &[u8]) -> bool
    requires { 0 < length word.now }
    ensures { result ≡ (not (is_ascii_digit (slice_index word.now 0))
        && not (is_reserved word.now)) }
{
    !word[0].is_ascii_digit() && !is_reserved(word)
}
