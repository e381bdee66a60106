//! Integer constants.

ghost use Rattle.std.specs.Prelude.{◌≡◌, ◌≤◌, ◌<◌, ◌+◌, ◌*◌, ◌^◌, true, MatchOption, length};
ghost use Rattle.std.specs.List.{list_all};
ghost use Rattle.c_token.specs.Bytes.{is_digit, value_from};
ghost use Rattle.c_token.specs.Integers.{number_kind, is_hexadecimal, base_of, digits_of};
ghost use Rattle.c_token.specs.private.Numbers.{IsTyped, IsNumber, is_suffixed, body_of, are_digits};

use crate::byte::digit_of;
use crate::token::Kind;
use c_tree::CType;

/// The value of an integer constant, an `unsigned` or an `int`.
#[derive(Clone, Copy, Debug, PartialEq, Eq)]
pub struct Number {
    pub unsigned: bool,
    pub value: u32,
}

impl Number {
    pub fn kind(self) -> Kind
        ensures { result ≡ number_kind self }
    {
        Kind::Number(
            if self.unsigned {
                CType::Unsigned
            } else {
                CType::Int
            },
            self.value,
        )
    }
}

/// Why a word that begins with a digit is no constant.
#[derive(Clone, Copy, Debug, PartialEq, Eq)]
pub enum NumberFault {
    /// It has none of the forms.
    Malformed,
    /// Its value is too large for its types.
    Large,
}

/// The integer constant that a whole word spells.
pub fn number_of(word: &[u8]) -> Result<Number, NumberFault>
    ensures { IsNumber word.now result }
{
    let suffixed = is_suffixed(word);
    let body = body_of(word);
    let base = base_of(body);
    let digits = digits_of(body);
    if are_digits(digits, base) {
        number_from(suffixed, base, digits)
    } else {
        Err(NumberFault::Malformed)
    }
}

fn number_from(suffixed: bool, base: u32, digits: &[u8]) -> Result<Number, NumberFault>
    requires in_range { (1 ≤ base) × (base ≤ 16) }
    requires spelled { list_all (is_digit base) digits.now ≡ true }
    ensures { IsTyped (record
        { base = base; suffixed = suffixed; value = value_from base 0 digits.now }) result }
{
    match value_of(digits, base) {
        Some(value) => typed(suffixed, base, value),
        None => Err(NumberFault::Large),
    }
}

fn is_suffixed(word: &[u8]) -> bool
    ensures { result ≡ is_suffixed word.now }
{
    !word.is_empty() && (word[word.len() - 1] == b'u' || word[word.len() - 1] == b'U')
}

/// A word without its suffix.
fn body_of(word: &[u8]) -> &[u8]
    ensures { result.now ≡ body_of word.now }
{
    if is_suffixed(word) {
        &word[..word.len() - 1]
    } else {
        word
    }
}

fn is_hexadecimal(body: &[u8]) -> bool
    ensures { result ≡ is_hexadecimal body.now }
{
    matches!(body, [b'0', b'x' | b'X', ..])
}

fn base_of(body: &[u8]) -> u32
    ensures { result ≡ base_of body.now }
{
    if is_hexadecimal(body) {
        16
    } else if !body.is_empty() && body[0] == b'0' {
        8
    } else {
        10
    }
}

fn digits_of(body: &[u8]) -> &[u8]
    ensures { result.now ≡ digits_of body.now }
{
    if is_hexadecimal(body) {
        &body[2..]
    } else {
        body
    }
}

/// The bytes are digits of the base, at least one.
fn are_digits(digits: &[u8], base: u32) -> bool
    requires { base ≤ 16 }
    ensures { result ≡ are_digits base digits.now }
{
    !digits.is_empty() && all_digits(digits, base)
}

fn all_digits(digits: &[u8], base: u32) -> bool
    requires { base ≤ 16 }
    ensures { result ≡ list_all (is_digit base) digits.now }
{
    digits.iter().all(|byte| digit_of(*byte, base).is_some())
}

fn typed(suffixed: bool, base: u32, value: u32) -> Result<Number, NumberFault>
    ensures { IsTyped (record { base = base; suffixed = suffixed; value = value }) result }
{
    if !suffixed && value < 0x8000_0000 {
        Ok(Number {
            unsigned: false,
            value,
        })
    } else if !suffixed && base == 10 {
        Err(NumberFault::Large)
    } else {
        Ok(Number {
            unsigned: true,
            value,
        })
    }
}

/// The value of digits in a base, below 2^32.
fn value_of(digits: &[u8], base: u32) -> Option<u32>
    requires in_range { (1 ≤ base) × (base ≤ 16) }
    requires all_digits { list_all (is_digit base) digits.now ≡ true }
    ensures { MatchOption result (2 ^ 32 ≤ value_from base 0 digits.now)
        (λ v. v ≡ value_from base 0 digits.now) }
{
    let mut value: u32 = 0;
    for byte in digits {
        let Some(digit) = digit_of(*byte, base) else {
            return None
        };
        let Some(more) = with_digit(value, base, digit) else {
            return None
        };
        value = more;
    }
    Some(value)
}

fn with_digit(value: u32, base: u32, digit: u32) -> Option<u32>
    requires { (base ≤ 16) × (digit < 16) }
    ensures { MatchOption result (2 ^ 32 ≤ base * value + digit) (λ v. v ≡ base * value + digit) }
{
    let more = u64::from(base) * u64::from(value) + u64::from(digit);
    if more < 0x1_0000_0000 {
        Some(more as u32)
    } else {
        None
    }
}
