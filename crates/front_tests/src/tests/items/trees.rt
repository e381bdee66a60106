//! One text for each alternative of the grammar.

use super::check;
use std::test::Fail;

const ITEMS: &str = "\
int x; => Vars(Shared, [Var { Int, 0, x, @5, [], None }])
 => 
BOP_CHECKED char x; => Vars(Checked, [Var { Char, 0, x, @18, [], None }])
BOP_PRIVATE unsigned x; => Vars(Private, [Var { Unsigned, 0, x, @22, [], None }])
unsigned int x; => Vars(Shared, [Var { Unsigned, 0, x, @14, [], None }])
unsigned char x; => Vars(Shared, [Var { Char, 0, x, @15, [], None }])
int**x,a; => Vars(Shared, [Var { Int, 2, x, @6, [], None }, Var { Int, 0, a, @8, [], None }])
int x[1][i?1:2]; => Vars(Shared, [Var { Int, 0, x, @5, [(Int(1)@7), (Conditional((Name(i)@10), (Int(1)@12), (Int(2)@14))@11)], None }])
int x=1; => Vars(Shared, [Var { Int, 0, x, @5, [], Some(One((Int(1)@7))) }])
int x=a=b; => Vars(Shared, [Var { Int, 0, x, @5, [], Some(One((Assign(None, (Name(a)@7), (Name(b)@9))@8))) }])
int x[2]={1}; => Vars(Shared, [Var { Int, 0, x, @5, [(Int(2)@7)], Some(Many([(Int(1)@11)])) }])
int x[2]={1,2}; => Vars(Shared, [Var { Int, 0, x, @5, [(Int(2)@7)], Some(Many([(Int(1)@11), (Int(2)@13)])) }])
int x[2]={1,2,},a; => Vars(Shared, [Var { Int, 0, x, @5, [(Int(2)@7)], Some(Many([(Int(1)@11), (Int(2)@13)])) }, Var { Int, 0, a, @17, [], None }])
int x;char a; => Vars(Shared, [Var { Int, 0, x, @5, [], None }]), Vars(Shared, [Var { Char, 0, a, @12, [], None }])
int f(); => Fun(Fun { Int, 0, f, @5, [], None })
char*f(void); => Fun(Fun { Char, 1, f, @6, [], None })
void f(){} => Fun(Fun { Void, 0, f, @6, [], Some([]) })
int f(int); => Fun(Fun { Int, 0, f, @5, [Param { Int, 0, None, @7, false }], None })
int f(int*x); => Fun(Fun { Int, 0, f, @5, [Param { Int, 1, Some(x), @11, false }], None })
int f(int[]); => Fun(Fun { Int, 0, f, @5, [Param { Int, 0, None, @7, true }], None })
int f(unsigned char x[],int**){} => Fun(Fun { Int, 0, f, @5, [Param { Char, 0, Some(x), @21, true }, Param { Int, 2, None, @25, false }], Some([]) })";

const STATEMENTS: &str = "\
; => (Empty@10)
 => 
a; => (Expr((Name(a)@10))@10)
a=b; => (Expr((Assign(None, (Name(a)@10), (Name(b)@12))@11))@10)
int x;a; => (Vars([Var { Int, 0, x, @14, [], None }])@10), (Expr((Name(a)@16))@16)
{} => (Block([])@10)
{;{a;}} => (Block([(Empty@11), (Block([(Expr((Name(a)@13))@13)])@12)])@10)
BeginPPR(1); => (Marker(Begin(1))@10)
EndPPR(2u); => (Marker(End(2))@10)
Wait(3); => (Marker(Wait(3))@10)
Post(4,a,8); => (Marker(Post(4, a, @17, Number(8)))@10)
Post(4,a,b); => (Marker(Post(4, a, @17, Name(b, @19)))@10)
if(a); => (If((Name(a)@13), (Empty@15), None)@10)
if(a);else b; => (If((Name(a)@13), (Empty@15), Some((Expr((Name(b)@21))@21)))@10)
if(a)if(b);else; => (If((Name(a)@13), (If((Name(b)@18), (Empty@20), Some((Empty@25)))@15), None)@10)
if(a)while(b)if(x);else; => (If((Name(a)@13), (While((Name(b)@21), (If((Name(x)@26), (Empty@28), Some((Empty@33)))@23))@15), None)@10)
if(a){if(b);}else; => (If((Name(a)@13), (Block([(If((Name(b)@19), (Empty@21), None)@16)])@15), Some((Empty@27)))@10)
if(a)do if(b);while(x);else; => (If((Name(a)@13), (Do((If((Name(b)@21), (Empty@23), None)@18), (Name(x)@30))@15), Some((Empty@37)))@10)
if(a);else if(b);else; => (If((Name(a)@13), (Empty@15), Some((If((Name(b)@24), (Empty@26), Some((Empty@31)))@21)))@10)
while(a); => (While((Name(a)@16), (Empty@18))@10)
do;while(a); => (Do((Empty@12), (Name(a)@19))@10)
for(;;); => (For(Nothing, None, None, (Empty@17))@10)
for(a;b;x)i; => (For(Expr((Name(a)@14)), Some((Name(b)@16)), Some((Name(x)@18)), (Expr((Name(i)@20))@20))@10)
for(int x,*a;;); => (For(Vars([Var { Int, 0, x, @18, [], None }, Var { Int, 1, a, @21, [], None }]), None, None, (Empty@25))@10)
return; => (Return(None)@10)
return a; => (Return(Some((Name(a)@17)))@10)
break; => (Break@10)
continue; => (Continue@10)
(char)a; => (Expr((Cast(Char, (Name(a)@16))@10))@10)
a-b-x; => (Expr((Binary(Minus, (Binary(Minus, (Name(a)@10), (Name(b)@12))@11), (Name(x)@14))@13))@10)
a[b]++; => (Expr((Step(RaiseLast, (Index((Name(a)@10), (Name(b)@12))@11))@14))@10)";

#[test]
fn each_alternative_of_items_has_its_tree(rt: HostRuntime) -> Result<(), Fail> {
    let count = check(&rt, rt.alloc(), ITEMS, ("", ""), ("[", "]"))?;
    assert_eq!(rt; count, 21);
    Ok(())
}

#[test]
fn each_alternative_of_statements_has_its_tree(rt: HostRuntime) -> Result<(), Fail> {
    let around = ("[Fun(Fun { Void, 0, f, @6, [], Some([", "]) })]");
    let count = check(&rt, rt.alloc(), STATEMENTS, ("void f(){", "}"), around)?;
    assert_eq!(rt; count, 31);
    Ok(())
}
