//! Tests: texts, and the trees that are read of them, written as texts.

use crate::tests::notation::{compact, fault_text};
use c_expr::{ParseFault, parse_cond, parse_expr};
use c_token::{Token, tokens};
use c_tree::Expr;
use std::alloc::Global;
use std::process::Abort;
use std::test::Fail;

/// Expressions, one at least for each alternative of the grammar, with their trees.
const TREES: &str = "a => (Name(a)@1)
7 => (Int(7)@1)
'A' => (Character(65)@1)
EOF => (Eof@1)
( a ) => (Name(a)@3)
f() => (Call(Name(f), [])@1)
f(a) => (Call(Name(f), [(Name(a)@3)])@1)
f(a,b,c) => (Call(Name(f), [(Name(a)@3), (Name(b)@5), (Name(c)@7)])@1)
getchar() => (Call(Getchar, [])@1)
putchar(a) => (Call(Putchar, [(Name(a)@9)])@1)
a[b] => (Index((Name(a)@1), (Name(b)@3))@2)
a[b][c] => (Index((Index((Name(a)@1), (Name(b)@3))@2), (Name(c)@6))@5)
a++ => (Step(RaiseLast, (Name(a)@1))@2)
a-- => (Step(LowerLast, (Name(a)@1))@2)
a--++ => (Step(RaiseLast, (Step(LowerLast, (Name(a)@1))@2))@4)
+a => (Unary(Plus, (Name(a)@2))@1)
-a => (Unary(Minus, (Name(a)@2))@1)
!a => (Unary(Not, (Name(a)@2))@1)
~a => (Unary(Flip, (Name(a)@2))@1)
*a => (Unary(At, (Name(a)@2))@1)
&a => (Unary(Address, (Name(a)@2))@1)
++a => (Step(RaiseFirst, (Name(a)@3))@1)
--a => (Step(LowerFirst, (Name(a)@3))@1)
-a[b] => (Unary(Minus, (Index((Name(a)@2), (Name(b)@4))@3))@1)
(int)a => (Cast(Int, (Name(a)@6))@1)
(char)a => (Cast(Char, (Name(a)@7))@1)
(unsigned)a => (Cast(Unsigned, (Name(a)@11))@1)
(unsigned int)-a => (Cast(Unsigned, (Unary(Minus, (Name(a)@16))@15))@1)
(unsigned char)(a) => (Cast(Char, (Name(a)@17))@1)
(a)[b] => (Index((Name(a)@2), (Name(b)@5))@4)
a*b => (Binary(Times, (Name(a)@1), (Name(b)@3))@2)
a/b => (Binary(Divide, (Name(a)@1), (Name(b)@3))@2)
a%b => (Binary(Rest, (Name(a)@1), (Name(b)@3))@2)
a+b => (Binary(Plus, (Name(a)@1), (Name(b)@3))@2)
a-b => (Binary(Minus, (Name(a)@1), (Name(b)@3))@2)
a<<b => (Binary(Left, (Name(a)@1), (Name(b)@4))@2)
a>>b => (Binary(Right, (Name(a)@1), (Name(b)@4))@2)
a<b => (Binary(Less, (Name(a)@1), (Name(b)@3))@2)
a>b => (Binary(Greater, (Name(a)@1), (Name(b)@3))@2)
a<=b => (Binary(LessEqual, (Name(a)@1), (Name(b)@4))@2)
a>=b => (Binary(GreaterEqual, (Name(a)@1), (Name(b)@4))@2)
a==b => (Binary(Equal, (Name(a)@1), (Name(b)@4))@2)
a!=b => (Binary(Unequal, (Name(a)@1), (Name(b)@4))@2)
a&b => (Binary(BitAnd, (Name(a)@1), (Name(b)@3))@2)
a^b => (Binary(BitXor, (Name(a)@1), (Name(b)@3))@2)
a|b => (Binary(BitOr, (Name(a)@1), (Name(b)@3))@2)
a&&b => (Binary(And, (Name(a)@1), (Name(b)@4))@2)
a||b => (Binary(Or, (Name(a)@1), (Name(b)@4))@2)
a-b-c => (Binary(Minus, (Binary(Minus, (Name(a)@1), (Name(b)@3))@2), (Name(c)@5))@4)
a-b*c => (Binary(Minus, (Name(a)@1), (Binary(Times, (Name(b)@3), (Name(c)@5))@4))@2)
a*b-c => (Binary(Minus, (Binary(Times, (Name(a)@1), (Name(b)@3))@2), (Name(c)@5))@4)
a||b&&c|d^e&f==g<h<<i+j*k => (Binary(Or, (Name(a)@1), (Binary(And, (Name(b)@4), (Binary(BitOr, (Name(c)@7), (Binary(BitXor, (Name(d)@9), (Binary(BitAnd, (Name(e)@11), (Binary(Equal, (Name(f)@13), (Binary(Less, (Name(g)@16), (Binary(Left, (Name(h)@18), (Binary(Plus, (Name(i)@21), (Binary(Times, (Name(j)@23), (Name(k)@25))@24))@22))@19))@17))@14))@12))@10))@8))@5))@2)
a?b:c => (Conditional((Name(a)@1), (Name(b)@3), (Name(c)@5))@2)
a?b=c:d?e:f => (Conditional((Name(a)@1), (Assign(None, (Name(b)@3), (Name(c)@5))@4), (Conditional((Name(d)@7), (Name(e)@9), (Name(f)@11))@8))@2)
a=b => (Assign(None, (Name(a)@1), (Name(b)@3))@2)
a=b=c => (Assign(None, (Name(a)@1), (Assign(None, (Name(b)@3), (Name(c)@5))@4))@2)
a*=b => (Assign(Some(Times), (Name(a)@1), (Name(b)@4))@2)
a/=b => (Assign(Some(Divide), (Name(a)@1), (Name(b)@4))@2)
a%=b => (Assign(Some(Rest), (Name(a)@1), (Name(b)@4))@2)
a+=b => (Assign(Some(Plus), (Name(a)@1), (Name(b)@4))@2)
a-=b => (Assign(Some(Minus), (Name(a)@1), (Name(b)@4))@2)
a<<=b => (Assign(Some(Left), (Name(a)@1), (Name(b)@5))@2)
a>>=b => (Assign(Some(Right), (Name(a)@1), (Name(b)@5))@2)
a&=b => (Assign(Some(BitAnd), (Name(a)@1), (Name(b)@4))@2)
a^=b => (Assign(Some(BitXor), (Name(a)@1), (Name(b)@4))@2)
a|=b => (Assign(Some(BitOr), (Name(a)@1), (Name(b)@4))@2)";

/// Texts that no expression is, and the column of the first token with which none goes on.
const REFUSED: &str = " => Unexpected 1:1
a= => Unexpected 1:3
a+; => Unexpected 1:3
a?b; => Unexpected 1:4
(a => Unexpected 1:3
() => Unexpected 1:2
(int a => Unexpected 1:6
(int) => Unexpected 1:6
(unsigned unsigned)a => Unexpected 1:11
f(a,) => Unexpected 1:5
f(a b => Unexpected 1:5
a[] => Unexpected 1:3
a[b; => Unexpected 1:4
getchar => Unexpected 1:8
putchar; => Unexpected 1:8
sizeof a => Unexpected 1:1
-struct => Unexpected 1:2
a+goto => Unexpected 1:3
int => Unexpected 1:1
if => Unexpected 1:1
) => Unexpected 1:1";

/// Texts of which the front is an expression, and the number of tokens before the rest.
const FRONTS: &str = "a b => 1
a+b; => 3
a=b) => 3
f(a)(b) => 4
a++b => 2
3(4) => 1
EOF() => 1
a:b => 1";

/// The same as a conditional expression.
const CONDITIONALS: &str = "a=b => 1
a?b:c=d => 5
a+b+=c => 3";

/// What is read of a text's front, as an expression or as a conditional expression.
fn front(
    rt: &impl Abort,
    alloc: Global,
    text: &str,
    as_cond: bool,
) -> Result<Result<(Expr, usize), ParseFault>, Fail> {
    assert!(rt; text.len() <= 1048576);
    let all = tokens(alloc, text.as_bytes())?;
    if as_cond {
        Ok(parse_cond(alloc, &all, 0, 0))
    } else {
        Ok(parse_expr(alloc, &all, 0, 0))
    }
}

/// Compares each line `TEXT => WANT` of a table, and answers how many there are.
fn check(
    rt: &impl Abort,
    alloc: Global,
    table: &str,
    counts: bool,
    as_cond: bool,
) -> Result<u32, Fail> {
    let mut count = 0u32;
    for line in table.lines() {
        let (text, want) = line.split_once(" => ").ok_or("a line without an arrow")?;
        let found = match front(rt, alloc, text, as_cond)? {
            Ok((e, end)) => {
                if counts {
                    format!(in alloc; "{end}")?
                } else {
                    compact(alloc, format!(in alloc; "{e:?}")?)?
                }
            }
            Err(fault) => fault_text(alloc, fault)?,
        };
        assert_eq!(rt; found.as_str(), want, "at {text}");
        count = count.saturating_add(1);
    }
    Ok(count)
}

/// What is read of a text of this many fronts, a middle, and as many ends.
fn repeated(
    rt: &impl Abort,
    alloc: Global,
    times: u32,
    before: &str,
    middle: &str,
    behind: &str,
) -> Result<String, Fail> {
    let mut text = String::new(alloc);
    for _ in 0..times {
        text.push_str(before)?;
    }
    text.push_str(middle)?;
    for _ in 0..times {
        text.push_str(behind)?;
    }
    match front(rt, alloc, text.as_str(), false)? {
        Ok((_e, end)) => Ok(format!(in alloc; "{end}")?),
        Err(fault) => fault_text(alloc, fault),
    }
}

#[test]
fn trees(rt: HostRuntime) -> Result<(), Fail> {
    let alloc = rt.alloc();
    assert_eq!(&rt; check(&rt, alloc, TREES, false, false)?, 66);
    assert_eq!(&rt; check(&rt, alloc, REFUSED, false, false)?, 21);
    assert_eq!(&rt; check(&rt, alloc, FRONTS, true, false)?, 8);
    assert_eq!(&rt; check(&rt, alloc, CONDITIONALS, true, true)?, 3);
    Ok(())
}

/// The deepest that is read of each kind, and one more.
#[test]
fn levels(rt: HostRuntime) -> Result<(), Fail> {
    let alloc = rt.alloc();
    let rows = [
        (65, "(", "a", ")", "131"),
        (66, "(", "a", ")", "TooDeep 1:67"),
        (201, "(", "a", ")", "TooDeep 1:67"),
        (197, "- ", "a", "", "198"),
        (198, "- ", "a", "", "TooDeep 1:397"),
        (197, "", "a", "+a", "395"),
        (198, "", "a", "+a", "TooDeep 1:397"),
        (198, "", "a", "++", "199"),
        (199, "", "a", "++", "TooDeep 1:398"),
        (195, "", "a", "[0]", "586"),
        (196, "", "a", "[0]", "TooDeep 1:588"),
        (5000, "", "f(a", ",a", "Unexpected 1:10004"),
    ];
    for (times, before, middle, behind, want) in rows {
        let found = repeated(&rt, alloc, times, before, middle, behind)?;
        assert_eq!(&rt;
            found.as_str(),
            want,
            "at {times} times {before}{middle}{behind}"
        );
    }
    Ok(())
}

/// The deepest left spine that the levels allow: 65 parentheses at the left, and behind each expression
/// as many operators of each rule as may stand there.
fn left_spine(alloc: Global) -> Result<String, Fail> {
    let mut text = String::new(alloc);
    for _ in 0..65 {
        text.push_str("(")?;
    }
    text.push_str("a")?;
    for closed in 0..66u32 {
        for operator in ["*", "+", "<<", "<", "==", "&", "^", "|", "&&", "||"] {
            for _ in 0..2 + 3 * closed {
                text.push_str(operator)?;
                text.push_str("a")?;
            }
        }
        if closed < 65 {
            text.push_str(")")?;
        }
    }
    Ok(text)
}

/// Some 65,000 nodes, each the first operand of the next.
#[test]
fn deepest(rt: HostRuntime) -> Result<(), Fail> {
    let alloc = rt.alloc();
    let text = left_spine(alloc)?;
    match front(&rt, alloc, text.as_str(), false)? {
        Ok((_e, end)) => assert_eq!(&rt; end, 131_471),
        Err(_fault) => panic!(&rt; "it is not read"),
    }
    Ok(())
}
