//! Words and signs.

use super::{check, places};
use std::test::Fail;

/// Every operator and punctuation.
const SIGNS: &str =
    "+ - * / % ++ -- = += -= *= /= %= <<= >>= &= |= ^= == != < > <= >= << >> & | ^ ~ ! && || ? : ; ,
( ) [ ] { }";

/// Tokens that stand close.
const LONGEST: &str = " => end
a+++++b => a ++ ++ + b end
a---b => a -- - b end
>>>= => >> >= end
>>>>= => >> >>= end
<<<= => << <= end
<<== => <<= = end
=== => == = end
!== => != = end
&&&= => && &= end
||| => || | end
^^= => ^ ^= end
~~ => ~ ~ end
-> => - > end
<> => < > end
=+ => = + end
a/b => a / b end
a/=/**/b => a /= b end
a*/b => a * / b end
a+/**/+b => a + + b end
a//=¶b => a b end
_ _9 a_Z => _ _9 a_Z end
Int intx xint => Int intx xint end
auto auto_ Auto => [auto] auto_ Auto end
EOF EOF1 eof => [EOF] EOF1 eof end
int/**/x => [int] x end
x1 1 x => x1 1 x end
a[1]=-2; => a [ 1 ] = - 2 ; end
c?'a':'b' => c ? '97 : '98 end
'a'b => '97 b end
L'a'1 => L '97 1 end
1;// x => 1 ; end";

/// Lines and columns.
const PLACES: &str = " => end@1:1
¶ => end@2:1
¶¶ => end@3:1
a¶b => a@1:1 b@2:1 end@2:2
a\r¶ b¶ => a@1:1 b@2:2 end@3:1
\t\ta => a@1:3 end@1:4
 \t\r¶\x0b\x0ca => a@2:3 end@2:4
/* é */a => a@1:9 end@1:10
/*¶¶*/a => a@3:3 end@3:4
a//¶b// => a@1:1 b@2:1 end@2:4
ab<<='c'12u[ => ab@1:1 <<=@1:3 '99@1:6 12u@1:9 [@1:12 end@1:13";

#[test]
fn each_sign_is_one_token(rt: HostRuntime) -> Result<(), Fail> {
    let alloc = rt.alloc();
    let mut count = 0u32;
    for sign in SIGNS.split_whitespace() {
        let end = sign.chars().count() + 1;
        let want = format!(in alloc; "{sign}@1:1 end@1:{end}")?;
        assert_eq!(rt; places(&rt, alloc, sign)?, want, "at {sign}");
        count = count.saturating_add(1);
    }
    assert_eq!(rt; count, 43);
    Ok(())
}

#[test]
fn the_longest_token_is_taken(rt: HostRuntime) -> Result<(), Fail> {
    assert_eq!(rt; check(&rt, rt.alloc(), LONGEST, false)?, 32);
    Ok(())
}

#[test]
fn a_place_counts_bytes(rt: HostRuntime) -> Result<(), Fail> {
    assert_eq!(rt; check(&rt, rt.alloc(), PLACES, true)?, 11);
    Ok(())
}
