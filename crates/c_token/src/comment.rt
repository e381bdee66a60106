//! Comments.

ghost use Rattle.std.specs.Prelude.{◌≡◌, ◌≤◌, ◌-◌, ◌++◌, ◌∷◌, [], true, false, length, take, MatchOption};
ghost use Rattle.std.specs.List.{prefix_len};
ghost use Rattle.c_token.specs.private.Fronts.{Takes, TakesNone};
ghost use Rattle.c_token.specs.Comments.{opens_comment, is_in_line, has_close, IsComment};
ghost use Rattle.c_token.specs.private.Lines.{IsClosed};

pub fn opens_comment(rest: &[u8]) -> bool
    ensures { result ≡ opens_comment rest.now }
{
    matches!(rest, [b'/', b'*' | b'/', ..])
}

/// How many bytes the comment at the front takes; none if it isn't closed.
#[tactic(auto, using(crate::proofs::CommentsLemmas::comments))]
pub fn comment_len(rest: &[u8]) -> Option<usize>
    requires { opens_comment rest.now ≡ true }
    ensures { MatchOption result (TakesNone IsComment rest.now) (λ n. Takes IsComment rest.now n) }
{
    if rest[1] == b'*' {
        match block_len(&rest[2..]) {
            Some(len) => Some(len + 2),
            None => None,
        }
    } else {
        Some(line_len(rest))
    }
}

/// How many bytes stand before the line's end.
pub fn line_len(rest: &[u8]) -> usize
    ensures { result ≡ prefix_len is_in_line rest.now }
{
    rest.iter().take_while(|byte| **byte != b'\n').count()
}

/// How many bytes stand up to the first `*/`, with it.
fn block_len(inside: &[u8]) -> Option<usize>
    ensures { MatchOption result (has_close inside.now ≡ false) (λ n. IsClosed inside.now n) }
{
    let mut at = 0;
    while at < inside.len() {
        if inside[at] == b'*' && at + 1 < inside.len() && inside[at + 1] == b'/' {
            return Some(at + 2);
        }
        at += 1;
    }
    None
}
