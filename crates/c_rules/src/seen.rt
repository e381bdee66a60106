//! Types as a walk passes them on, in no memory of their own.

ghost use Rattle.std.specs.Prelude.{◌≡◌, true, Some, IfOk};
ghost use Rattle.c_tree.specs.Ty as the_ty;
ghost use Rattle.c_tree.specs.View.{ty_of};
ghost use Rattle.c_tree.specs.Shapes.{same, is_integer, is_unsigned, is_void, is_pointer, is_scalar, decayed, promoted, common};
ghost use Rattle.c_tree.specs.Rules.{pointed};
ghost use Rattle.c_rules.specs.Seen.{base, seen, seen_some, is_flat};

use c_tree::{CType, OutOfMemory};
use std::alloc::Global;

/// A type: int, unsigned, or one that stands somewhere.
#[derive(Clone, Copy, Debug)]
pub enum Base<'a> {
    Int,
    Unsigned,
    At(&'a CType),
}

/// A type, or a pointer to it.
#[derive(Clone, Copy, Debug)]
pub enum Seen<'a> {
    Is(Base<'a>),
    To(Base<'a>),
}

/// Whether two types are the same.
pub fn same_type(a: &CType, b: &CType) -> bool
    ensures { result ≡ same (ty_of a.now) (ty_of b.now) }
{
    match (a, b) {
        (CType::Int, CType::Int) => true,
        (CType::Unsigned, CType::Unsigned) => true,
        (CType::Char, CType::Char) => true,
        (CType::Void, CType::Void) => true,
        (CType::Pointer(x), CType::Pointer(y)) => same_type(x, y),
        (CType::Array(x, n), CType::Array(y, m)) => n == m && same_type(x, y),
        _ => false,
    }
}

/// Whether a type is void.
pub fn is_void(ty: &CType) -> bool
    ensures { result ≡ is_void (ty_of ty.now) }
{
    matches!(ty, CType::Void)
}

fn is_pointer_to(a: &CType, b: Base) -> bool
    ensures { result ≡ same (ty_of a.now) (the_ty.Pointer (base b.entry)) }
{
    match a {
        CType::Pointer(x) => b.is_type(x),
        _ => false,
    }
}

impl<'a> Base<'a> {
    fn is_type(self, ty: &CType) -> bool
        ensures { result ≡ same (ty_of ty.now) (base self.entry) }
    {
        match self {
            Base::Int => matches!(ty, CType::Int),
            Base::Unsigned => matches!(ty, CType::Unsigned),
            Base::At(a) => same_type(ty, a),
        }
    }

    fn is_int(self) -> bool
        ensures { result ≡ same the_ty.Int (base self.entry) }
    {
        matches!(self, Base::Int | Base::At(CType::Int))
    }

    fn is_unsigned(self) -> bool
        ensures { result ≡ same the_ty.Unsigned (base self.entry) }
    {
        matches!(self, Base::Unsigned | Base::At(CType::Unsigned))
    }

    fn is_same(self, other: Base) -> bool
        ensures { result ≡ same (base self.entry) (base other.entry) }
    {
        match self {
            Base::Int => other.is_int(),
            Base::Unsigned => other.is_unsigned(),
            Base::At(a) => other.is_type(a),
        }
    }

    fn own(self, alloc: Global) -> Result<CType, OutOfMemory>
        ensures { IfOk result (λ t. ty_of t ≡ base self.entry) }
    {
        match self {
            Base::Int => Ok(CType::Int),
            Base::Unsigned => Ok(CType::Unsigned),
            Base::At(ty) => ty.again(alloc),
        }
    }
}

impl<'a> Seen<'a> {
    /// A type that stands somewhere.
    pub fn of(ty: &'a CType) -> Seen<'a>
        ensures ty { seen result ≡ ty_of ty.now }
        ensures flat { is_flat (Some result) ≡ true }
    {
        Seen::Is(Base::At(ty))
    }

    /// Whether two types are the same.
    pub fn is_same(self, other: Seen) -> bool
        ensures { result ≡ same (seen self.entry) (seen other.entry) }
    {
        match (self, other) {
            (Seen::Is(a), Seen::Is(b)) => a.is_same(b),
            (Seen::To(a), Seen::To(b)) => a.is_same(b),
            (Seen::Is(Base::At(a)), Seen::To(b)) => is_pointer_to(a, b),
            (Seen::To(a), Seen::Is(Base::At(CType::Pointer(b)))) => a.is_same(Base::At(b)),
            _ => false,
        }
    }

    pub fn is_integer(self) -> bool
        ensures { result ≡ is_integer (seen self.entry) }
    {
        match self {
            Seen::Is(Base::Int) => true,
            Seen::Is(Base::Unsigned) => true,
            Seen::Is(Base::At(CType::Int)) => true,
            Seen::Is(Base::At(CType::Unsigned)) => true,
            Seen::Is(Base::At(CType::Char)) => true,
            _ => false,
        }
    }

    pub fn is_unsigned(self) -> bool
        ensures { result ≡ is_unsigned (seen self.entry) }
    {
        matches!(
            self,
            Seen::Is(Base::Unsigned) | Seen::Is(Base::At(CType::Unsigned))
        )
    }

    pub fn is_pointer(self) -> bool
        ensures { result ≡ is_pointer (seen self.entry) }
    {
        match self {
            Seen::To(_) => true,
            Seen::Is(Base::At(CType::Pointer(_))) => true,
            _ => false,
        }
    }

    pub fn is_scalar(self) -> bool
        ensures { result ≡ is_scalar (seen self.entry) }
    {
        self.is_integer() || self.is_pointer()
    }

    /// A pointer to the first element in place of an array.
    pub fn decay(self) -> Seen<'a>
        ensures { seen result ≡ decayed (seen self.entry) }
    {
        match self {
            Seen::Is(Base::At(CType::Array(of, _))) => Seen::To(Base::At(of)),
            _ => self,
        }
    }

    /// Int in place of char.
    pub fn promote(self) -> Seen<'a>
        ensures { seen result ≡ promoted (seen self.entry) }
    {
        match self {
            Seen::Is(Base::At(CType::Char)) => Seen::Is(Base::Int),
            _ => self,
        }
    }

    /// What a pointer points to.
    pub fn pointee(self) -> Option<Seen<'a>>
        ensures ty { seen_some result ≡ pointed (seen self.entry) }
        ensures flat { is_flat result ≡ true }
    {
        match self {
            Seen::To(to) => Some(Seen::Is(to)),
            Seen::Is(Base::At(CType::Pointer(to))) => Some(Seen::Is(Base::At(to))),
            _ => None,
        }
    }

    /// What two integers are converted to.
    pub fn common(self, other: Seen<'a>) -> Seen<'a>
        ensures { seen result ≡ common (seen self.entry) (seen other.entry) }
    {
        if self.is_unsigned() || other.is_unsigned() {
            Seen::Is(Base::Unsigned)
        } else {
            Seen::Is(Base::Int)
        }
    }

    /// The type in memory of its own.
    pub fn own(self, alloc: Global) -> Result<CType, OutOfMemory>
        ensures { IfOk result (λ t. ty_of t ≡ seen self.entry) }
    {
        match self {
            Seen::Is(ty) => ty.own(alloc),
            Seen::To(ty) => Ok(CType::Pointer(Box::new(alloc, ty.own(alloc)?)?)),
        }
    }
}
