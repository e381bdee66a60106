//! Integer and character constants.

use super::{check, check_each, shown};
use std::test::Fail;

/// Each base at its limits, with a suffix and without.
const INTEGERS: &str = "0 => 0 end
00 => 0 end
0x0 => 0 end
0u => 0u end
0XaU => 10u end
9 => 9 end
017 => 15 end
0x1F => 31 end
0X1f => 31 end
0xabcdef => 11259375 end
0xABCDEF => 11259375 end
000000000000000000000000012u => 10u end
0x00000000000000000000012 => 18 end
2147483647 => 2147483647 end
2147483648 => TooLarge 1:1
4294967295 => TooLarge 1:1
4294967296 => TooLarge 1:1
99999999999999999999999999 => TooLarge 1:1
2147483647u => 2147483647u end
2147483648u => 2147483648u end
4294967295U => 4294967295u end
4294967296u => TooLarge 1:1
017777777777 => 2147483647 end
020000000000 => 2147483648u end
037777777777 => 4294967295u end
040000000000 => TooLarge 1:1
017777777777u => 2147483647u end
037777777777u => 4294967295u end
040000000000u => TooLarge 1:1
0x7fffffff => 2147483647 end
0x80000000 => 2147483648u end
0xFFFFffff => 4294967295u end
0x100000000 => TooLarge 1:1
0x7fffffffu => 2147483647u end
0xffffffffu => 4294967295u end
0x100000000u => TooLarge 1:1
-2147483648 => TooLarge 1:2";

/// Words that are no integer constants.
const NO_INTEGERS: &str = "08
09
0189
08u
0x
0X
0xu
0xg
0x1G
1a
1uu
1uU
1ul
1L
1lu
1_
1u1
0b1
12ab34
1e5
4294967296x
99999999999999999999z";

/// Plain bytes and every escape.
const CHARACTERS: &str = "'a' => '97 end
' ' => '32 end
'~' => '126 end
'\"' => '34 end
'?' => '63 end
'0' => '48 end
'/' => '47 end
'\\n' => '10 end
'\\t' => '9 end
'\\r' => '13 end
'\\a' => '7 end
'\\b' => '8 end
'\\f' => '12 end
'\\v' => '11 end
'\\\\' => '92 end
'\\'' => '39 end
'\\\"' => '34 end
'\\?' => '63 end
'\\0' => '0 end
'\\7' => '7 end
'\\00' => '0 end
'\\12' => '10 end
'\\77' => '63 end
'\\000' => '0 end
'\\101' => '65 end
'\\377' => '255 end
'\\x0' => '0 end
'\\xf' => '15 end
'\\xF' => '15 end
'\\x41' => '65 end
'\\x0A' => '10 end
'\\xff' => '255 end
'/*' => BadLiteral 1:1
'a''b' => '97 '98 end";

/// What is no character constant.
const NO_CHARACTERS: &str = "'
''
'''
'a
'ab'
'\\'
'\\
'\\400'
'\\777'
'\\1234'
'\\0000'
'\\8'
'\\9'
'\\18'
'\\128'
'\\x'
'\\xg'
'\\x100'
'\\x000'
'\\X41'
'\\q'
'\\e'
'\\N'
'\\ '
'¶'
'\t'
'\x7f'
'é'";

#[test]
fn integers(rt: HostRuntime) -> Result<(), Fail> {
    let alloc = rt.alloc();
    assert_eq!(rt; check(&rt, alloc, INTEGERS, false)?, 37);
    assert_eq!(rt; check_each(&rt, alloc, NO_INTEGERS, "BadLiteral 1:1")?, 22);
    Ok(())
}

#[test]
fn characters(rt: HostRuntime) -> Result<(), Fail> {
    let alloc = rt.alloc();
    assert_eq!(rt; check(&rt, alloc, CHARACTERS, false)?, 34);
    assert_eq!(rt;
        check_each(&rt, alloc, NO_CHARACTERS, "BadLiteral 1:1")?,
        28
    );
    let found = shown(&rt, alloc, b"'\x80'".as_slice(), false)?;
    assert_eq!(rt; found.as_str(), "BadLiteral 1:1");
    Ok(())
}
