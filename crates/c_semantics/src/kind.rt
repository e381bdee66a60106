//! What the meaning of an act depends on in its operands' types.

ghost use Rattle.std.specs.Prelude.{◌≡◌};
ghost use Rattle.c_semantics.specs.Eval.{is_unsigned};

/// How a value takes part in arithmetic.
#[derive(Clone, Copy, Debug, PartialEq, Eq)]
pub enum Operand {
    /// An int, or a char, which becomes one.
    Signed,
    Unsigned,
    /// A pointer, with the bytes of what it points to.
    Pointer(u64),
}

/// What an object holds.
#[derive(Clone, Copy, Debug, PartialEq, Eq)]
pub enum Held {
    /// One byte: a char.
    Byte,
    /// Four bytes: an int, an unsigned or a pointer.
    Word,
    /// An array, which is never read or written as a whole.
    Array,
}

impl Operand {
    /// Whether its arithmetic is that of unsigned numbers.
    pub fn is_unsigned(self) -> bool
        ensures { result ≡ is_unsigned self }
    {
        !matches!(self, Operand::Signed)
    }
}
