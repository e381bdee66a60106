//! Types.

ghost use Rattle.std.specs.Prelude.{◌≡◌, IfOk};
ghost use Rattle.c_tree.specs.View.{ty_of};

use crate::OutOfMemory;
use std::alloc::Global;

/// A type of the source language.
#[derive(Debug, Drop, PartialEq, Eq)]
pub enum CType {
    Int,
    Unsigned,
    Char,
    Void,
    /// A pointer to a type.
    Pointer(Box<CType>),
    /// An array of a type, with its number of elements.
    Array(Box<CType>, u32),
}

impl CType {
    /// An equal type in memory of its own.
    pub fn again(&self, alloc: Global) -> Result<CType, OutOfMemory>
        ensures { IfOk result (λ copy. ty_of copy ≡ ty_of self.now) }
    {
        match self {
            CType::Int => Ok(CType::Int),
            CType::Unsigned => Ok(CType::Unsigned),
            CType::Char => Ok(CType::Char),
            CType::Void => Ok(CType::Void),
            CType::Pointer(to) => Ok(CType::Pointer(Box::new(alloc, to.again(alloc)?)?)),
            CType::Array(of, count) => {
                Ok(CType::Array(Box::new(alloc, of.again(alloc)?)?, *count))
            }
        }
    }
}
