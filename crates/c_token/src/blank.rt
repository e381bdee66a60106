//! Blanks, and the words behind them.

ghost use Rattle.std.specs.Prelude.{◌≡◌, drop, Option};
ghost use Rattle.std.specs.List.{prefix_len};
ghost use Rattle.std.specs.Option.{option_map};
ghost use Rattle.c_token.specs.Bytes.{is_blank};
ghost use Rattle.c_token.specs.private.Fronts.{word_behind};

use crate::byte::is_blank;
use crate::word::word_len;

fn blank_len(rest: &[u8]) -> usize
    ensures { result ≡ prefix_len is_blank rest.now }
{
    rest.iter().take_while(|byte| is_blank(**byte)).count()
}

/// What stands behind the blanks and tabs at the front.
#[tactic(auto, using(crate::proofs::ByteRuns::runs))]
pub fn after_blanks(rest: &[u8]) -> &[u8]
    ensures { result.now ≡ drop (prefix_len is_blank rest.now) rest.now }
{
    &rest[blank_len(rest)..]
}

/// The word behind at least one blank or tab, and what follows it.
pub fn word_behind_blank(rest: &[u8]) -> Option<(&[u8], &[u8])>
    ensures { option_map (λ x. (x.0.now, x.1.now)) result ≡ word_behind rest.now }
{
    let blanks = blank_len(rest);
    let word = after_blanks(rest);
    let len = word_len(word);
    if blanks == 0 || len == 0 {
        return None;
    }
    Some(word.split_at(len))
}
