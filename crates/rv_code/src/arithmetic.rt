//! Arithmetic on words, beyond Rust's own operators.

ghost use Rattle.std.specs.Prelude.{◌≡◌, ◌<◌};
ghost use Rattle.rv_code.specs.Word.{signed_less, left_shift, right_shift, signed_right_shift, extended_64, upper_product, signed_upper_product, mixed_upper_product, quotient, remainder, signed_quotient, signed_remainder};

/// Whether a word is less than another, both in two's complement.
pub fn signed_less(a: u32, b: u32) -> bool
    ensures { result ≡ signed_less a b }
{
    a.cast_signed() < b.cast_signed()
}

pub fn left_shift(a: u32, amount: u32) -> u32
    requires { amount < 32 }
    ensures { result ≡ left_shift a amount }
{
    a << amount
}

pub fn right_shift(a: u32, amount: u32) -> u32
    requires { amount < 32 }
    ensures { result ≡ right_shift a amount }
{
    a >> amount
}

/// Shifts right, filled with the sign.
pub fn signed_right_shift(a: u32, amount: u32) -> u32
    requires { amount < 32 }
    ensures { result ≡ signed_right_shift a amount }
{
    (a.cast_signed() >> amount).cast_unsigned()
}

/// The upper half of the product of two numbers without sign.
pub fn upper_product(a: u32, b: u32) -> u32
    ensures { result ≡ upper_product a b }
{
    ((u64::from(a) * u64::from(b)) >> 32) as u32
}

/// The upper half of the product of two numbers with their signs.
pub fn signed_upper_product(a: u32, b: u32) -> u32
    ensures { result ≡ signed_upper_product a b }
{
    (extended_64(a).wrapping_mul(extended_64(b)) >> 32) as u32
}

/// The upper half of the product of a number with its sign by one without.
pub fn mixed_upper_product(a: u32, b: u32) -> u32
    ensures { result ≡ mixed_upper_product a b }
{
    (extended_64(a).wrapping_mul(u64::from(b)) >> 32) as u32
}

/// A word with its sign, as 64 bits in two's complement.
fn extended_64(a: u32) -> u64
    ensures { result ≡ extended_64 a }
{
    if a < 0x8000_0000 {
        u64::from(a)
    } else {
        u64::from(a) + 0xffff_ffff_0000_0000
    }
}

pub fn quotient(a: u32, b: u32) -> u32
    ensures { result ≡ quotient a b }
{
    if b == 0 { u32::MAX } else { a / b }
}

pub fn remainder(a: u32, b: u32) -> u32
    ensures { result ≡ remainder a b }
{
    if b == 0 { a } else { a % b }
}

/// The quotient toward zero, both in two's complement.
pub fn signed_quotient(a: u32, b: u32) -> u32
    ensures { result ≡ signed_quotient a b }
{
    if b == 0 {
        u32::MAX
    } else {
        a.cast_signed()
            .wrapping_div(b.cast_signed())
            .cast_unsigned()
    }
}

/// The remainder with the sign of the dividend, both in two's complement.
pub fn signed_remainder(a: u32, b: u32) -> u32
    ensures { result ≡ signed_remainder a b }
{
    if b == 0 {
        a
    } else {
        a.cast_signed()
            .wrapping_rem(b.cast_signed())
            .cast_unsigned()
    }
}
