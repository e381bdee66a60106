//! The types of constants, and what an operator does to two constants.

ghost use Rattle.std.specs.Prelude.{◌≡◌, Option};
ghost use Rattle.c_tree.specs.View.{ty_of};
ghost use Rattle.c_tree.specs.Shapes.{promoted, common, is_unsigned};
ghost use Rattle.c_tree.specs.Constant.{binary_shape, integer_shape, is_unsigned_act, needs_second, binary_value, is_ready};
ghost use Rattle.c_rules.specs.IntegerTypes.{integer};

use crate::words::binary_word;
use c_tree::{Binary, CType};

/// The type of a constant.
#[derive(Clone, Copy, Debug, PartialEq, Eq)]
pub enum Integer {
    Int,
    Unsigned,
    Char,
}

impl Integer {
    pub fn of(ty: &CType) -> Integer
        ensures { integer result ≡ integer_shape (ty_of ty.now) }
    {
        match ty {
            CType::Unsigned => Integer::Unsigned,
            CType::Char => Integer::Char,
            CType::Int => Integer::Int,
            CType::Void => Integer::Int,
            CType::Pointer(_) => Integer::Int,
            CType::Array(_, _) => Integer::Int,
        }
    }

    /// The type by itself.
    pub fn own(self) -> CType
        ensures { ty_of result ≡ integer self }
    {
        match self {
            Integer::Int => CType::Int,
            Integer::Unsigned => CType::Unsigned,
            Integer::Char => CType::Char,
        }
    }

    pub fn promote(self) -> Integer
        ensures { integer result ≡ promoted (integer self) }
    {
        match self {
            Integer::Char => Integer::Int,
            Integer::Int => Integer::Int,
            Integer::Unsigned => Integer::Unsigned,
        }
    }

    /// Whether it is unsigned.
    pub fn is_unsigned(self) -> bool
        ensures { result ≡ is_unsigned (integer self) }
    {
        matches!(self, Integer::Unsigned)
    }

    pub fn common(self, other: Integer) -> Integer
        ensures { integer result ≡ common (integer self) (integer other) }
    {
        if self.is_unsigned() || other.is_unsigned() {
            Integer::Unsigned
        } else {
            Integer::Int
        }
    }
}

pub fn binary_type(op: Binary, left: Integer, right: Integer) -> Integer
    ensures { integer result ≡ binary_shape op (integer left) (integer right) }
{
    if op.group().gives_truth() {
        Integer::Int
    } else if op.group().is_shift() {
        left.promote()
    } else {
        left.common(right)
    }
}

pub fn is_unsigned_act(op: Binary, left: Integer, right: Integer) -> bool
    ensures { result ≡ is_unsigned_act op (integer left) (integer right) }
{
    left.is_unsigned() || !op.group().is_shift() && right.is_unsigned()
}

pub fn needs_second(op: Binary, x: Option<u32>) -> bool
    ensures { result ≡ needs_second op x }
{
    match x {
        None => !op.group().is_logic(),
        Some(x) => !op.group().decides(x),
    }
}

pub fn binary_value(op: Binary, unsigned: bool, x: Option<u32>, y: Option<u32>) -> Option<u32>
    ensures { result ≡ binary_value op unsigned x y }
{
    let x = x?;
    if op.group().decides(x) {
        return Some(if x != 0 { 1 } else { 0 });
    }
    match y {
        None => None,
        Some(y) => binary_word(op, unsigned, x, y).ok(),
    }
}

pub fn is_ready(op: Binary, x: Option<u32>, y: Option<u32>) -> bool
    ensures { result ≡ is_ready op x y }
{
    x.is_some() && (!needs_second(op, x) || y.is_some())
}
