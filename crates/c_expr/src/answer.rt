//! Expressions at a place of a list of tokens.

ghost use Rattle.std.specs.Prelude.{◌<◌, length};
ghost use Rattle.c_expr.specs.Grammar.{IsAssign, IsCond};
ghost use Rattle.c_expr.specs.Parsing.{ParsedAt, IsEnded};
ghost use Rattle.c_expr.specs.private.ParserRules.{IsRule};

use crate::cursor::Cursor;
use crate::fault::ParseFault;
use crate::level::LEVELS;
use crate::parse::open_rule;
use crate::rule::Rule;
use c_token::Token;
use c_tree::Expr;
use std::alloc::Global;

fn parse_rule(
    alloc: Global,
    which: Rule,
    tokens: &[Token],
    at: usize,
    level: u32,
) -> Result<(Expr, usize), ParseFault>
    requires below { at < length tokens.now }
    requires ended { IsEnded tokens.now }
    ensures { ParsedAt (IsRule which level) tokens.now at result }
{
    let room = LEVELS.saturating_sub(level);
    let mut cursor = Cursor {
        tokens: &tokens[at..],
        room,
    };
    let found = open_rule(alloc, which, &mut cursor)?;
    Ok((found, tokens.len().saturating_sub(cursor.tokens.len())))
}

/// Reads an expression (C11 6.5.16) from a place of the tokens on, and answers its tree and the first
/// place such that the tokens up to and with it begin no expression. `level` is what is open outside
/// adds to a token's level. The last token is the end of the text.
pub fn parse_expr(
    alloc: Global,
    tokens: &[Token],
    at: usize,
    level: u32,
) -> Result<(Expr, usize), ParseFault>
    requires below { at < length tokens.now }
    requires ended { IsEnded tokens.now }
    ensures { ParsedAt (IsAssign level) tokens.now at result }
{
    parse_rule(alloc, Rule::Assign, tokens, at, level)
}

/// The same of a conditional expression (C11 6.5.15), which is no assignment.
pub fn parse_cond(
    alloc: Global,
    tokens: &[Token],
    at: usize,
    level: u32,
) -> Result<(Expr, usize), ParseFault>
    requires below { at < length tokens.now }
    requires ended { IsEnded tokens.now }
    ensures { ParsedAt (IsCond level) tokens.now at result }
{
    parse_rule(alloc, Rule::Cond, tokens, at, level)
}
