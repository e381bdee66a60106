//! Types, faults and constants by tables.

mod blocks;

use crate::tests::read::{ctype, name, read_expr, row};
use c_tree::{Binary, CType, Expr, ExprKind, Place};
use c_types::{Env, TypeFault, constant, convert, promote, type_of};
use std::alloc::Global;
use std::test::Fail;

fn at(column: u32) -> Place {
    Place { line: 1, column }
}

fn names(alloc: Global) -> Result<Env, Fail> {
    let mut env = Env::new(alloc)?;
    for line in "c : char\ni : int\nu : unsigned\np : int *\nq : char *\na : int 3\nm : int 3 2".lines()
    {
        let (object, ty) = row(line)?;
        env.declare(&name(alloc, object)?, ctype(alloc, ty)?)?;
    }
    let mut params = Vec::new(alloc);
    params.push(CType::Int)?;
    params.push(ctype(alloc, "int *")?)?;
    env.declare_fun(&name(alloc, "f")?, CType::Int, params)?;
    env.declare_fun(&name(alloc, "g")?, ctype(alloc, "int *")?, Vec::new(alloc))?;
    env.declare_fun(&name(alloc, "v")?, CType::Void, Vec::new(alloc))?;
    Ok(env)
}

const TYPES: &str = "7 : int
7u : unsigned
'a' : int
EOF : int
c : char
a : int 3
+c : int
-u : unsigned
~c : int
!p : int
*p : int
*a : int
&i : int *
&a : int 3 *
c++ : char
++p : int *
(char)u : char
(unsigned)c : unsigned
c+c : int
i+u : unsigned
i/i : int
c&u : unsigned
c<<u : int
u>>c : unsigned
p+i : int *
i+a : int *
a-u : int *
p-a : int
i<u : int
p>=a : int
p==0 : int
0u!=q : int
p&&c : int
u||p : int
p?c:u : unsigned
i?p:a : int *
i?p:0 : int *
i?0:q : char *
c=u : char
p=a : int *
p=0 : int *
u*=c : unsigned
q+=i : char *
a[i] : int
i[a] : int
m[i] : int 3
m[i][i] : int
f(c,0) : int
f(u,a) : int
g() : int *
getchar() : int
putchar(c) : int";

#[test]
fn each_rule_gives_its_type(rt: HostRuntime) -> Result<(), Fail> {
    let env = names(rt.alloc())?;
    for line in TYPES.lines() {
        let (text, ty) = row(line)?;
        let found = type_of(rt.alloc(), &read_expr(&rt, rt.alloc(), text)?, &env)?;
        assert!(rt; found == ctype(rt.alloc(), ty)?, "{text} is {found:?}");
    }
    Ok(())
}

const FAULTS: &str = "x : Unknown 1
x(i) : Unknown 1
f : Mismatch 1
i(i) : Mismatch 1
-p : Mismatch 1
*i : Mismatch 1
(int)p : Mismatch 1
a++ : Mismatch 2
p+p : Mismatch 2
p-q : Mismatch 2
p*u : Mismatch 2
p<0 : Mismatch 2
p==q : Mismatch 2
p=='\\0' : Mismatch 2
p==-0 : Mismatch 2
i?p:i : Mismatch 2
i?p:q : Mismatch 2
p='\\0' : Mismatch 2
i=p : Mismatch 2
a=a : Mismatch 2
p*=i : Mismatch 2
i+=p : Mismatch 2
i[i] : Mismatch 2
f(p,i) : Mismatch 1
v() : Mismatch 1
v()+i : Mismatch 1
v(i) : Mismatch 1
1=i : NotAPlace 2
&(i+i) : NotAPlace 1
1++ : NotAPlace 2
f(i) : Arguments 1
getchar(i) : Arguments 1
putchar() : Arguments 1
f(x) : Arguments 1
1=x : NotAPlace 2
p*x : Mismatch 2
p+x : Unknown 3
x+y : Unknown 1
x+(int)*p : Unknown 1
-p+x : Mismatch 1";

/// A fault by its name and its column.
fn fault(text: &str) -> Result<TypeFault, Fail> {
    let (kind, column) = text.split_once(" ").ok_or("a fault has a column")?;
    let place = at(column.parse::<u32>()?);
    Ok(match kind {
        "Mismatch" => TypeFault::Mismatch(place),
        "NotAPlace" => TypeFault::NotAPlace(place),
        "Unknown" => TypeFault::Unknown(place),
        _ => TypeFault::Arguments(place),
    })
}

#[test]
fn each_fault_has_its_place(rt: HostRuntime) -> Result<(), Fail> {
    let env = names(rt.alloc())?;
    for line in FAULTS.lines() {
        let (text, want) = row(line)?;
        let found = type_of(rt.alloc(), &read_expr(&rt, rt.alloc(), text)?, &env).err();
        assert_eq!(rt; found, Some(fault(want)?), "{text}");
    }
    Ok(())
}

#[test]
fn an_inner_name_hides_the_outer(rt: HostRuntime) -> Result<(), Fail> {
    let mut env = names(rt.alloc())?;
    let expr = read_expr(&rt, rt.alloc(), "c")?;
    env.enter()?;
    assert!(rt; type_of(rt.alloc(), &expr, &env)? == CType::Char);
    env.declare(&name(rt.alloc(), "c")?, CType::Unsigned)?;
    assert!(rt; type_of(rt.alloc(), &expr, &env)? == CType::Unsigned);
    env.leave();
    assert!(rt; type_of(rt.alloc(), &expr, &env)? == CType::Char);
    Ok(())
}

const CONSTANTS: &str = "2147483647 : int : 2147483647
'\\310' : int : 200
EOF : int : 4294967295
(char)300 : char : 44
(unsigned)-1 : unsigned : 4294967295
~0 : int : 4294967295
!3 : int : 0
4294967295u+1u : unsigned : 0
0u-1 : unsigned : 4294967295
65536u*65536u : unsigned : 0
-1u : unsigned : 4294967295
-2147483647-1 : int : 2147483648
-7/2 : int : 4294967293
-7%2 : int : 4294967295
-1/2u : unsigned : 2147483647
-1<1u : int : 0
-1<1 : int : 1
-1>>31 : int : 4294967295
4294967295u>>31 : unsigned : 1
1u<<31 : unsigned : 2147483648
1<<30 : int : 1073741824
12^10 : int : 6
1?2:1/0 : int : 2
0?1/0:3 : int : 3
1?5:6u : unsigned : 5
0&&1/0 : int : 0
1||1/0 : int : 1
5&&6 : int : 1
0||0 : int : 0";

#[test]
fn constants_have_types_and_values(rt: HostRuntime) -> Result<(), Fail> {
    for line in CONSTANTS.lines() {
        let (text, wanted) = row(line)?;
        let (ty, value) = row(wanted)?;
        let found = constant(&read_expr(&rt, rt.alloc(), text)?)?;
        let want = (ctype(rt.alloc(), ty)?, value.parse::<u32>()?);
        assert!(rt; found == want, "{text} is {found:?}");
    }
    Ok(())
}

const NO_CONSTANTS: &str = "i : 1
i++ : 2
1=1 : 2
1+&i : 3
f() : 1
a[1] : 2
2147483647+1 : 11
-2147483647-2 : 12
65536*32768 : 6
-(-2147483647-1) : 1
(-2147483647-1)/-1 : 16
(-2147483647-1)%-1 : 16
1/0 : 2
1u%0u : 3
1<<32 : 2
1>>-1 : 2
-1<<1 : 3
1<<31 : 2
1u>>32 : 3
1&&1/0 : 5
0||1/0 : 5
1?1/0:2 : 4
0?i:2 : 3
i+1/0 : 1";

#[test]
fn what_is_no_constant_has_its_place(rt: HostRuntime) -> Result<(), Fail> {
    for line in NO_CONSTANTS.lines() {
        let (text, column) = row(line)?;
        let found = constant(&read_expr(&rt, rt.alloc(), text)?).err();
        let want = TypeFault::NotConstant(at(column.parse::<u32>()?));
        assert_eq!(rt; found, Some(want), "{text}");
    }
    Ok(())
}

#[test]
fn integers_promote_and_convert(rt: HostRuntime) {
    assert!(rt; promote(&CType::Char) == CType::Int);
    assert!(rt; promote(&CType::Int) == CType::Int);
    assert!(rt; promote(&CType::Unsigned) == CType::Unsigned);
    for (value, want) in [(255, 255), (256, 0), (4294967295, 255)] {
        assert_eq!(rt; convert(value, &CType::Char), want);
        assert_eq!(rt; convert(value, &CType::Int), value);
        assert_eq!(rt; convert(value, &CType::Unsigned), value);
    }
}

fn one() -> Expr {
    Expr {
        kind: ExprKind::Number(CType::Unsigned, 1),
        place: at(1),
    }
}

/// A sum of 70,001 operands, each within the one before.
fn long_sum(alloc: Global) -> Result<Expr, Fail> {
    let mut sum = one();
    for _index in 0..70_000 {
        let left = Box::new(alloc, sum)?;
        let kind = ExprKind::Binary(Binary::Plus, left, Box::new(alloc, one())?);
        sum = Expr { kind, place: at(1) };
    }
    Ok(sum)
}

#[test]
fn long_sums_need_little_stack(rt: HostRuntime) -> Result<(), Fail> {
    let env = Env::new(rt.alloc())?;
    let sum = long_sum(rt.alloc())?;
    assert!(rt; type_of(rt.alloc(), &sum, &env)? == CType::Unsigned);
    assert!(rt; constant(&sum)? == (CType::Unsigned, 70001));
    Ok(())
}
