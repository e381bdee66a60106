//! What may stand behind the last part of a line that begins with `#`.

ghost use Rattle.std.specs.Prelude.{◌≡◌, ◌<◌, ◌≤◌, true, drop, length, MatchBool, MatchOption};
ghost use Rattle.c_token.specs.Directives.{IsTail};
ghost use Rattle.c_token.specs.private.Lines.{GoesOn};

use crate::byte::is_blank;
use crate::comment::{comment_len, opens_comment};

/// Blanks, tabs, comments and at most one CR.
pub fn is_tail(tail: &[u8]) -> bool
    ensures { MatchBool result (IsTail true tail.now) (IsTail true tail.now → ⊥) }
{
    let mut at = 0;
    let mut may_return = true;
    while at < tail.len() {
        match tail_piece(&tail[at..], may_return) {
            Some((len, may)) => {
                at += len;
                may_return = may;
            }
            None => return false,
        }
    }
    true
}

/// How many bytes the next piece of a tail takes, and whether a CR may stand behind it.
fn tail_piece(rest: &[u8], may_return: bool) -> Option<(usize, bool)>
    requires { 0 < length rest.now }
    ensures { MatchOption result (IsTail may_return rest.now → ⊥)
        (λ x. GoesOn may_return rest.now x.0 x.1) }
{
    if is_blank(rest[0]) {
        Some((1, may_return))
    } else if rest[0] == b'\r' && may_return {
        Some((1, false))
    } else if opens_comment(rest) {
        match comment_len(rest) {
            Some(len) => Some((len, may_return)),
            None => None,
        }
    } else {
        None
    }
}
