//! Arithmetic on values of 32 bits: a value, or the undefined act that it is.

ghost use Rattle.std.specs.Prelude.{◌≡◌};
ghost use Rattle.c_tree.specs.View.{ty_of};
ghost use Rattle.c_tree.specs.Arithmetic.{sum, difference, product, quotient, remainder, left_shift, right_shift, is_less, truth, negative, binary_word, unary_word, converted};

use c_tree::{Binary, CType, Unary, Undefined};

fn sum(unsigned: bool, x: u32, y: u32) -> Result<u32, Undefined>
    ensures { result ≡ sum unsigned x y }
{
    if unsigned {
        Ok(x.wrapping_add(y))
    } else {
        let sum = x
            .cast_signed()
            .checked_add(y.cast_signed())
            .ok_or(Undefined::Overflow)?;
        Ok(sum.cast_unsigned())
    }
}

fn difference(unsigned: bool, x: u32, y: u32) -> Result<u32, Undefined>
    ensures { result ≡ difference unsigned x y }
{
    if unsigned {
        Ok(x.wrapping_sub(y))
    } else {
        let difference = x
            .cast_signed()
            .checked_sub(y.cast_signed())
            .ok_or(Undefined::Overflow)?;
        Ok(difference.cast_unsigned())
    }
}

fn product(unsigned: bool, x: u32, y: u32) -> Result<u32, Undefined>
    ensures { result ≡ product unsigned x y }
{
    if unsigned {
        Ok(x.wrapping_mul(y))
    } else {
        let product = x
            .cast_signed()
            .checked_mul(y.cast_signed())
            .ok_or(Undefined::Overflow)?;
        Ok(product.cast_unsigned())
    }
}

fn quotient(unsigned: bool, x: u32, y: u32) -> Result<u32, Undefined>
    ensures { result ≡ quotient unsigned x y }
{
    if y == 0 {
        return Err(Undefined::Divide);
    }
    if unsigned {
        return Ok(x / y);
    }
    let quotient = x.cast_signed().checked_div(y.cast_signed());
    Ok(quotient.ok_or(Undefined::Overflow)?.cast_unsigned())
}

fn remainder(unsigned: bool, x: u32, y: u32) -> Result<u32, Undefined>
    ensures { result ≡ remainder unsigned x y }
{
    if y == 0 {
        return Err(Undefined::Divide);
    }
    if unsigned {
        return Ok(x % y);
    }
    let remainder = x.cast_signed().checked_rem(y.cast_signed());
    Ok(remainder.ok_or(Undefined::Overflow)?.cast_unsigned())
}

fn left_shift(unsigned: bool, x: u32, amount: u32) -> Result<u32, Undefined>
    ensures { result ≡ left_shift unsigned x amount }
{
    if amount >= 32 {
        return Err(Undefined::Shift);
    }
    if unsigned {
        return Ok(x << amount);
    }
    let shifted = (x as u64) << amount;
    if shifted < 0x8000_0000 {
        Ok(shifted as u32)
    } else {
        Err(Undefined::Shift)
    }
}

fn right_shift(unsigned: bool, x: u32, amount: u32) -> Result<u32, Undefined>
    ensures { result ≡ right_shift unsigned x amount }
{
    if amount >= 32 {
        Err(Undefined::Shift)
    } else if unsigned {
        Ok(x >> amount)
    } else {
        Ok((x.cast_signed() >> amount).cast_unsigned())
    }
}

fn is_less(unsigned: bool, x: u32, y: u32) -> bool
    ensures { result ≡ is_less unsigned x y }
{
    if unsigned {
        x < y
    } else {
        x.cast_signed() < y.cast_signed()
    }
}

fn truth(test: bool) -> u32
    ensures { result ≡ truth test }
{
    if test { 1 } else { 0 }
}

/// What an operator between two integers gives, both converted; the flag says that they are unsigned, for a shift the left one.
pub fn binary_word(op: Binary, unsigned: bool, x: u32, y: u32) -> Result<u32, Undefined>
    ensures { result ≡ binary_word op unsigned x y }
{
    match op {
        Binary::Or => Ok(truth(x != 0 || y != 0)),
        Binary::And => Ok(truth(x != 0 && y != 0)),
        Binary::BitOr => Ok(x | y),
        Binary::BitXor => Ok(x ^ y),
        Binary::BitAnd => Ok(x & y),
        Binary::Equal => Ok(truth(x == y)),
        Binary::Unequal => Ok(truth(x != y)),
        Binary::Less => Ok(truth(is_less(unsigned, x, y))),
        Binary::Greater => Ok(truth(is_less(unsigned, y, x))),
        Binary::LessEqual => Ok(truth(!is_less(unsigned, y, x))),
        Binary::GreaterEqual => Ok(truth(!is_less(unsigned, x, y))),
        Binary::Left => left_shift(unsigned, x, y),
        Binary::Right => right_shift(unsigned, x, y),
        Binary::Plus => sum(unsigned, x, y),
        Binary::Minus => difference(unsigned, x, y),
        Binary::Times => product(unsigned, x, y),
        Binary::Divide => quotient(unsigned, x, y),
        Binary::Rest => remainder(unsigned, x, y),
    }
}

fn negative(unsigned: bool, x: u32) -> Result<u32, Undefined>
    ensures { result ≡ negative unsigned x }
{
    if unsigned {
        Ok(x.wrapping_neg())
    } else {
        let negative = x.cast_signed().checked_neg().ok_or(Undefined::Overflow)?;
        Ok(negative.cast_unsigned())
    }
}

/// What an arithmetic operator before an integer gives; `*` and `&` leave the value.
pub fn unary_word(op: Unary, unsigned: bool, x: u32) -> Result<u32, Undefined>
    ensures { result ≡ unary_word op unsigned x }
{
    match op {
        Unary::Plus => Ok(x),
        Unary::Minus => negative(unsigned, x),
        Unary::Not => Ok(truth(x == 0)),
        Unary::Flip => Ok(!x),
        Unary::At => Ok(x),
        Unary::Address => Ok(x),
    }
}

/// A value converted to a type: to char modulo 2^8, else modulo 2^32 (C11 6.3.1.3).
pub fn convert(value: u32, to: &CType) -> u32
    ensures { result ≡ converted (ty_of to.now) value }
{
    match to {
        CType::Char => value % 256,
        _ => value,
    }
}
