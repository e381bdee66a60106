//! Numbers and names among the words.

ghost use Rattle.std.specs.Prelude.{◌≡◌, ◌↔◌, ℕ, MatchOption, IsTrue};
ghost use Rattle.std.specs.Char.{IsAsciiDigit};
ghost use Rattle.std.specs.List.{All};
ghost use Rattle.bop_words.specs.OptionTable.{IsName, IsNumber};

use crate::limits::NUMBER_DIGITS;

/// The number that a word is, within a range.
pub fn number_of(word: &str, least: u64, most: u64) -> Option<u64>
    ensures { MatchOption result ((number : ℕ) → IsNumber least most word.now number → ⊥)
        (IsNumber least most word.now) }
{
    if word.len() > NUMBER_DIGITS || !are_digits(word.as_bytes()) {
        return None;
    }
    let Ok(number) = word.parse::<u64>() else {
        return None;
    };
    (least..=most).contains(&number).then_some(number)
}

/// The small number that a word is, within a range.
pub fn small_number_of(word: &str, least: u32, most: u32) -> Option<u32>
    ensures { MatchOption result ((number : ℕ) → IsNumber least most word.now number → ⊥)
        (IsNumber least most word.now) }
{
    let number = number_of(word, u64::from(least), u64::from(most))?;
    u32::try_from(number).ok()
}

/// Whether a text is of digits alone.
fn are_digits(text: &[u8]) -> bool
    ensures { IsTrue result ↔ All IsAsciiDigit text.now }
{
    text.iter().all(|byte| byte.is_ascii_digit())
}

/// The name that a word is.
pub fn name_of<'a>(word: &'a str) -> Option<&'a str>
    ensures { MatchOption result (IsName word.now → ⊥)
        (λ name. (name.now ≡ word.now) × IsName word.now) }
{
    match word.as_bytes() {
        [] | [b'-', ..] => None,
        _ => Some(word),
    }
}
