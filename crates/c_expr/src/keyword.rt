//! Reserved words of expressions and types.

pub(crate) const INT: &str = "int";

pub(crate) const CHAR: &str = "char";

pub(crate) const UNSIGNED: &str = "unsigned";

pub(crate) const END_OF_FILE: &str = "EOF";

pub(crate) const GETCHAR: &str = "getchar";

pub(crate) const PUTCHAR: &str = "putchar";
