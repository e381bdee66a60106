//! Signs: operators and punctuation.

ghost use Rattle.std.specs.Prelude.{◌≡◌, codes};
ghost use Rattle.c_token.specs.Signs.{padded};
ghost use Rattle.c_token.specs.private.SignForms.{sign_len, three, two, one, is_one_of};

/// How many bytes the longest sign at the front takes; 0 if none stands there.
pub fn sign_len(rest: &[u8]) -> usize
    ensures { result ≡ sign_len rest.now }
{
    match rest {
        [a, b, c, ..] => three(*a, *b, *c),
        [a, b] => two(*a, *b),
        [a] => one(*a),
        [] => 0,
    }
}

/// A sign's bytes, followed by zeros.
pub fn padded(sign: &[u8]) -> [u8; 3]
    ensures { result ≡ padded sign.now }
{
    match sign {
        [a] => [*a, 0, 0],
        [a, b] => [*a, *b, 0],
        [a, b, c, ..] => [*a, *b, *c],
        [] => [0; 3],
    }
}

fn three(a: u8, b: u8, c: u8) -> usize
    ensures { result ≡ three a b c }
{
    if c == b'=' && a == b && (a == b'<' || a == b'>') {
        3
    } else {
        two(a, b)
    }
}

fn two(a: u8, b: u8) -> usize
    ensures { result ≡ two a b }
{
    if (b == b'=' && takes_equals(a)) || (a == b && doubles(a)) {
        2
    } else {
        one(a)
    }
}

fn one(a: u8) -> usize
    ensures { result ≡ one a }
{
    if takes_equals(a) || stands_alone(a) {
        1
    } else {
        0
    }
}

fn takes_equals(byte: u8) -> bool
    ensures { result ≡ is_one_of (codes "+-*/%&|^=!<>") byte }
{
    matches!(
        byte,
        b'+' | b'-' | b'*' | b'/' | b'%' | b'&' | b'|' | b'^' | b'=' | b'!' | b'<' | b'>'
    )
}

fn doubles(byte: u8) -> bool
    ensures { result ≡ is_one_of (codes "+-<>&|") byte }
{
    matches!(byte, b'+' | b'-' | b'<' | b'>' | b'&' | b'|')
}

fn stands_alone(byte: u8) -> bool
    ensures { result ≡ is_one_of (codes "~?:;,()[]{}") byte }
{
    matches!(
        byte,
        b'~' | b'?' | b':' | b';' | b',' | b'(' | b')' | b'[' | b']' | b'{' | b'}'
    )
}
