//! Faults, each at its token.

use super::{check, read, shown};
use c_expr::ParseFault;
use c_token::{Kind, Token};
use c_tree::Place;
use std::test::Fail;

const TEXTS: &str = "\
; => Unexpected 1:1
x; => Unexpected 1:1
int => Unexpected 1:4
int; => Unexpected 1:4
int x => Unexpected 1:6
int x y; => Unexpected 1:7
void x; => Unexpected 1:7
void*x(); => Unexpected 1:5
int x,; => Unexpected 1:7
int x[]; => Unexpected 1:7
int x[1; => Unexpected 1:8
int x[a=1]; => Unexpected 1:8
int x={}; => Unexpected 1:8
int x={,}; => Unexpected 1:8
int x={1 2}; => Unexpected 1:10
int x={1,,}; => Unexpected 1:10
int x=; => Unexpected 1:7
int x,f(); => Unexpected 1:8
BOP_CHECKED int f(); => Unexpected 1:18
BOP_CHECKED void f(); => Unexpected 1:13
int f(void,int); => Unexpected 1:11
int f(int,); => Unexpected 1:11
int f(int x[1]); => Unexpected 1:13
int f(int x y); => Unexpected 1:13
int f(x); => Unexpected 1:7
int f()}; => Unexpected 1:8
int f(){} ; => Unexpected 1:11
int f(){ => Unexpected 1:9";

const BODIES: &str = "\
a = ; => Unexpected 1:14
a => Unexpected 1:11
a b; => Unexpected 1:12
else; => Unexpected 1:10
if a; => Unexpected 1:13
if(); => Unexpected 1:13
if(a); else; else; => Unexpected 1:23
if(a)int x; => Unexpected 1:15
while(a)} => Unexpected 1:18
do;while(a)} => Unexpected 1:21
do;a; => Unexpected 1:13
for(;); => Unexpected 1:15
for(;;;); => Unexpected 1:16
for(int;;); => Unexpected 1:17
for(BOP_CHECKED int x;;); => Unexpected 1:14
return} => Unexpected 1:16
break a; => Unexpected 1:16
continue a; => Unexpected 1:19
BeginPPR(a); => Unexpected 1:19
EndPPR 1; => Unexpected 1:17
Wait(1) => Unexpected 1:17
Post(1,2,3); => Unexpected 1:17
Post(1,a,'b'); => Unexpected 1:19
Post(1,a); => Unexpected 1:18
int f(); => Unexpected 1:15
BOP_PRIVATE int x; => Unexpected 1:10
void x; => Unexpected 1:10
int x => Unexpected 1:15
)) => Unexpected 1:10";

/// The keywords that the grammar doesn't use.
const KEYWORDS: &str = "\
auto
case
const
default
double
enum
extern
float
goto
inline
long
register
restrict
short
signed
sizeof
static
struct
switch
typedef
union
volatile
_Alignas
_Alignof
_Atomic
_Bool
_Complex
_Generic
_Imaginary
_Noreturn
_Static_assert
_Thread_local";

#[test]
fn unexpected_tokens_are_refused_at_their_places(rt: HostRuntime) -> Result<(), Fail> {
    let none = ("", "");
    let count = check(&rt, rt.alloc(), TEXTS, none, none)?;
    assert_eq!(rt; count, 28);
    let count = check(&rt, rt.alloc(), BODIES, ("void f(){", "}"), none)?;
    assert_eq!(rt; count, 29);
    Ok(())
}

#[test]
fn other_keywords_are_unexpected(rt: HostRuntime) -> Result<(), Fail> {
    let mut count = 0u32;
    for keyword in KEYWORDS.lines() {
        let text = format!(in rt.alloc(); "{keyword} x;")?;
        assert_eq!(rt;
            shown(&rt, rt.alloc(), text.as_str())?.as_str(),
            "Unexpected 1:1",
            "at {text}"
        );
        let text = format!(in rt.alloc(); "void f(){{{keyword} x;}}")?;
        assert_eq!(rt;
            shown(&rt, rt.alloc(), text.as_str())?.as_str(),
            "Unexpected 1:10",
            "at {text}"
        );
        let text = format!(in rt.alloc(); "int x={keyword};")?;
        assert_eq!(rt;
            shown(&rt, rt.alloc(), text.as_str())?.as_str(),
            "Unexpected 1:7",
            "at {text}"
        );
        count = count.saturating_add(1);
    }
    assert_eq!(rt; count, 32);
    Ok(())
}

#[test]
fn a_second_end_is_unexpected(rt: HostRuntime) -> Result<(), Fail> {
    let at = |column: u32| Place { line: 1, column };
    let tokens = [
        Token {
            kind: Kind::End,
            place: at(1),
        },
        Token {
            kind: Kind::End,
            place: at(2),
        },
    ];
    let found = c_decl::parse(rt.alloc(), tokens.as_slice());
    assert!(rt;
        matches!(
            found,
            Err(ParseFault::Unexpected(Place { line: 1, column: 2 }))
        )
    );
    Ok(())
}
