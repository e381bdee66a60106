//! From a text to a checked tree and its layout.

ghost use Rattle.std.specs.Prelude.{◌≡◌, ◌≤◌, IfOk, IfErr, MatchResult, length};
ghost use Rattle.c_token.specs.declared.limits.TheConstants.{TEXT_BYTES};
ghost use Rattle.c_tree.specs.View.{items_of};
ghost use Rattle.low_link.specs.Front.{Spells, IsAccepted, RefusesUncounted, Fronted, Sourced};

use crate::Refused;
use c_check::check;
use c_decl::parse;
use c_layout::{Layout, lay_out};
use c_token::tokens;
use c_tree::{Checked, Tree};
use low_stmt::has_few_parts;
use std::alloc::Global;

/// The tree of a text.
fn read(alloc: Global, text: &[u8]) -> Result<Tree, Refused>
    requires { length text.now ≤ TEXT_BYTES }
    ensures { MatchResult result (λ tree. Spells text.now (items_of tree)) (RefusesUncounted text.now) }
{
    let tokens = tokens(alloc, text)?;
    Ok(parse(alloc, &tokens)?)
}

/// The tree of a text, as one that is accepted.
fn accept(alloc: Global, text: &[u8]) -> Result<Checked, Refused>
    requires { length text.now ≤ TEXT_BYTES }
    ensures { MatchResult result (λ checked. IsAccepted text.now (items_of checked.tree))
        (RefusesUncounted text.now) }
{
    let tree = read(alloc, text)?;
    Ok(check(alloc, tree)?)
}

/// The checked tree of a text of at most 1,048,576 bytes, and its layout; or the first fault: of its tokens,
/// of the grammar, of the rules of the language, of the sizes.
pub fn front(alloc: Global, text: &[u8]) -> Result<(Checked, Layout), Refused>
    requires { length text.now ≤ TEXT_BYTES }
    ensures { Fronted text.now result }
{
    let checked = accept(alloc, text)?;
    let layout = lay_out(alloc, &checked)?;
    Ok((checked, layout))
}

/// The same of a text that the compiler takes: one with few parts, which are counted last.
pub fn source(alloc: Global, text: &[u8]) -> Result<(Checked, Layout), Refused>
    requires { length text.now ≤ TEXT_BYTES }
    ensures { Sourced text.now result }
{
    let (checked, layout) = front(alloc, text)?;
    if has_few_parts(checked.tree()) {
        Ok((checked, layout))
    } else {
        Err(Refused::CodeTooLong)
    }
}
