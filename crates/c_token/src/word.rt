//! Words: names and reserved words.

ghost use Rattle.std.specs.Prelude.{◌≡◌};
ghost use Rattle.std.specs.List.{prefix_len, list_any};
ghost use Rattle.std.specs.Str.{bytes_eq};
ghost use Rattle.c_token.specs.Bytes.{is_word};
ghost use Rattle.c_token.specs.ReservedWords.{is_reserved};

use crate::byte::is_word;

/// The keywords of C11 (6.4.1), and the words that this compiler adds.
const RESERVED: [&str; 53] = [
    "auto",
    "break",
    "case",
    "char",
    "const",
    "continue",
    "default",
    "do",
    "double",
    "else",
    "enum",
    "extern",
    "float",
    "for",
    "goto",
    "if",
    "inline",
    "int",
    "long",
    "register",
    "restrict",
    "return",
    "short",
    "signed",
    "sizeof",
    "static",
    "struct",
    "switch",
    "typedef",
    "union",
    "unsigned",
    "void",
    "volatile",
    "while",
    "_Alignas",
    "_Alignof",
    "_Atomic",
    "_Bool",
    "_Complex",
    "_Generic",
    "_Imaginary",
    "_Noreturn",
    "_Static_assert",
    "_Thread_local",
    "BOP_CHECKED",
    "BOP_PRIVATE",
    "BeginPPR",
    "EndPPR",
    "Post",
    "Wait",
    "EOF",
    "getchar",
    "putchar",
];

pub fn is_reserved(word: &[u8]) -> bool
    ensures { result ≡ is_reserved word.now }
{
    is_among(&RESERVED, word)
}

fn is_among(words: &[&str], word: &[u8]) -> bool
    ensures { result ≡ list_any (λ w. bytes_eq w.now word.now) words.now }
{
    words.iter().any(|other| other.as_bytes() == word)
}

/// How many letters, digits and `_` stand at the front.
pub fn word_len(rest: &[u8]) -> usize
    ensures { result ≡ prefix_len is_word rest.now }
{
    rest.iter().take_while(|byte| is_word(**byte)).count()
}
