//! What the meaning of an act depends on in the types of its operands.

ghost use Rattle.std.specs.Prelude.{◌≡◌, IfOk};
ghost use Rattle.c_tree.specs.View.{ty_of};
ghost use Rattle.c_layout.specs.Sizes.{size};
ghost use Rattle.c_semantics.specs.Names.{held, held_by, operand_of, operand_by};
ghost use Rattle.c_rules.specs.Seen.{seen, seen_some};

use c_rules::{Base, Seen};
use c_semantics::{Held, Operand};
use c_tree::{CType, OutOfMemory};

/// What an object of a type holds.
pub fn held_of(ty: &CType) -> Held
    ensures { result ≡ held (ty_of ty.now) }
{
    match ty {
        CType::Char => Held::Byte,
        CType::Array(_, _) => Held::Array,
        _ => Held::Word,
    }
}

/// The same of a type that there may not be.
pub fn held_by(ty: Option<Seen>) -> Held
    ensures { result ≡ held_by (seen_some ty.entry) }
{
    match ty {
        Some(Seen::Is(Base::At(ty))) => held_of(ty),
        _ => Held::Word,
    }
}

/// The bytes of an object. No memory holds one whose size has more than 64 bits.
pub fn size(ty: &CType) -> Result<u64, OutOfMemory>
    ensures { IfOk result (λ bytes. bytes ≡ size (ty_of ty.now)) }
{
    match ty {
        CType::Int => Ok(4),
        CType::Unsigned => Ok(4),
        CType::Char => Ok(1),
        CType::Void => Ok(0),
        CType::Pointer(_) => Ok(4),
        CType::Array(of, count) => match u64::from(*count).checked_mul(size(of)?) {
            Some(bytes) => Ok(bytes),
            None => Err(OutOfMemory),
        },
    }
}

fn size_of(ty: Seen) -> Result<u64, OutOfMemory>
    ensures { IfOk result (λ bytes. bytes ≡ size (seen ty.entry)) }
{
    match ty {
        Seen::Is(Base::At(ty)) => size(ty),
        _ => Ok(4),
    }
}

/// How a value takes part in arithmetic that is no array.
fn operand_of(ty: Seen) -> Result<Operand, OutOfMemory>
    ensures { IfOk result (λ operand. operand ≡ operand_of (seen ty.entry)) }
{
    if ty.is_unsigned() {
        return Ok(Operand::Unsigned);
    }
    match ty.pointee() {
        None => Ok(Operand::Signed),
        Some(to) => Ok(Operand::Pointer(size_of(to)?)),
    }
}

/// How a value of a type takes part in arithmetic.
pub fn operand_by(ty: Option<Seen>) -> Result<Operand, OutOfMemory>
    ensures { IfOk result (λ operand. operand ≡ operand_by (seen_some ty.entry)) }
{
    match ty {
        None => Ok(Operand::Signed),
        Some(ty) => operand_of(ty.decay()),
    }
}
