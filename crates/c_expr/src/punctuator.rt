//! Punctuators of the grammar (C11 6.4.6), each followed by zeros.

pub const PARENTHESIS_OPEN: [u8; 3] = *b"(\0\0";

pub const PARENTHESIS_CLOSE: [u8; 3] = *b")\0\0";

pub const BRACKET_OPEN: [u8; 3] = *b"[\0\0";

pub const BRACKET_CLOSE: [u8; 3] = *b"]\0\0";

pub const BRACE_OPEN: [u8; 3] = *b"{\0\0";

pub const BRACE_CLOSE: [u8; 3] = *b"}\0\0";

pub const COMMA: [u8; 3] = *b",\0\0";

pub const SEMICOLON: [u8; 3] = *b";\0\0";

pub const QUESTION: [u8; 3] = *b"?\0\0";

pub const COLON: [u8; 3] = *b":\0\0";

pub const EQUALS: [u8; 3] = *b"=\0\0";

pub const STAR: [u8; 3] = *b"*\0\0";
