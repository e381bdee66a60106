//! Character constants.

ghost use Rattle.std.specs.Prelude.{◌≡◌, ◌≤◌, ◌<◌, ◌+◌, ◌*◌, if◌then◌else◌, nat_lt, MatchOption, ℕ};
ghost use Rattle.c_token.specs.Characters.{is_plain, simple_escape};
ghost use Rattle.c_token.specs.private.Fronts.{Takes, TakesNone};
ghost use Rattle.c_token.specs.private.Quotes.{IsCharacter, character_in, quoted, escape};

use crate::byte::digit_of;

/// The character constant at the front: its value, and how many bytes it takes.
pub fn character(rest: &[u8]) -> Option<(u8, usize)>
    ensures { MatchOption result ((value : ℕ) → TakesNone (IsCharacter value) rest.now)
        (λ found. Takes (IsCharacter found.0) rest.now found.1) }
{
    for len in 3..7 {
        if let Some(value) = character_in(rest, len) {
            return Some((value, len));
        }
    }
    None
}

/// The value of the first `len` bytes as a character constant.
fn character_in(rest: &[u8], len: usize) -> Option<u8>
    requires { 3 ≤ len }
    ensures { result ≡ character_in rest.now len }
{
    if len <= rest.len() && rest[0] == b'\'' && rest[len - 1] == b'\'' {
        quoted(&rest[1..len - 1])
    } else {
        None
    }
}

/// The value of what stands between the quotes.
fn quoted(inside: &[u8]) -> Option<u8>
    ensures { result ≡ quoted inside.now }
{
    match inside {
        [byte] => plain(*byte),
        [b'\\', byte] => escape(*byte),
        [b'\\', b'x', high] => Some(digit_of(*high, 16)? as u8),
        [b'\\', b'x', high, low] => Some((digit_of(*high, 16)? * 16 + digit_of(*low, 16)?) as u8),
        [b'\\', high, low] => Some((digit_of(*high, 8)? * 8 + digit_of(*low, 8)?) as u8),
        [b'\\', high, middle, low] => {
            octal(
                digit_of(*high, 8)?,
                digit_of(*middle, 8)?,
                digit_of(*low, 8)?,
            )
        }
        _ => None,
    }
}

/// A byte that stands for itself.
fn plain(byte: u8) -> Option<u8>
    ensures { result ≡ (if is_plain byte then Some byte else None) }
{
    if b' ' <= byte && byte <= b'~' && byte != b'\'' && byte != b'\\' {
        Some(byte)
    } else {
        None
    }
}

/// An escape of one letter, mark or octal digit.
fn escape(byte: u8) -> Option<u8>
    ensures { result ≡ escape byte }
{
    match simple_escape(byte) {
        Some(value) => Some(value),
        None => Some(digit_of(byte, 8)? as u8),
    }
}

fn simple_escape(byte: u8) -> Option<u8>
    ensures { result ≡ simple_escape byte }
{
    match byte {
        b'n' => Some(10),
        b't' => Some(9),
        b'r' => Some(13),
        b'a' => Some(7),
        b'b' => Some(8),
        b'f' => Some(12),
        b'v' => Some(11),
        b'\\' | b'\'' | b'"' | b'?' => Some(byte),
        _ => None,
    }
}

fn octal(high: u32, middle: u32, low: u32) -> Option<u8>
    requires { (high < 8) × (middle < 8) × (low < 8) }
    ensures { result ≡ (if nat_lt (64 * high + 8 * middle + low) 256
        then Some (64 * high + 8 * middle + low) else None) }
{
    let value = 64 * high + 8 * middle + low;
    if value < 256 { Some(value as u8) } else { None }
}
