//! One expression for each form, run on the machine.

use super::call;
use super::runs::figures;
use crate::Status;
use c_token::TEXT_BYTES;
use low_link::compile;
use std::alloc::Global;
use std::test::Fail;

/// What stands before each body.
const FRONT: &str = "int g=5; unsigned u=4000000000u; char c=200; int a[4]={10,20,30,40};
char b[3]={1,2,255}; int m[2][3]; int *q;
void set(int x){g=x;}
int sub(int x,int y){return x-y;}
int eighth(int i,int j,int k,int l,int n,int o,int r,int s){return s*10+i;}
";

/// Bodies of `main`, and the value that each exits with.
const BODIES: &str = "return 2147483647; => 2147483647
return -2147483647-1; => -2147483648
return 2047; => 2047
return 2048; => 2048
return 'A'; => 65
return EOF; => -1
return g; => 5
return c; => 200
return -g; => -5
return +g; => 5
return -1u>0; => 1
return ~g; => -6
return !g; => 0
return !0; => 1
return *&g; => 5
return *(a+2); => 30
return *(3+a); => 40
return a[g-3]; => 30
return b[2]; => 255
m[1][2]=6; return m[1][2]+m[0][2]; => 6
return (char)300; => 44
return (unsigned)-1>5; => 1
return (int)u; => -294967296
return g*-3; => -15
return 65536u*65536u; => 0
return -7/2; => -3
return u/1000000000u; => 4
return -7%3; => -1
return u%7u; => 3
return g+3; => 8
return g-8; => -3
return 1<<g; => 32
return -8>>1; => -4
return u>>31; => 1
return -1<1; => 1
return -1<1u; => 0
return 6>g; => 1
return u>1; => 1
return g<=5; => 1
return g>=6; => 0
return g==5; => 1
return g!=5; => 0
return &a[1]<&a[2]; => 1
q=0; return q==0; => 1
return g&4; => 4
return g|2; => 7
return g^1; => 4
return g&&0; => 0
(g=0)&&(g=9); return g; => 0
return 0||g; => 1
1||(g=9); return g; => 5
return g?11:12; => 11
return 0?11:12; => 12
return *(g?a:a+1); => 10
return &a[3]-&a[1]; => 2
return &b[2]-&b[0]; => 2
int x; x=4; return x; => 4
return c=300; => 44
int x=7; x*=3; return x; => 21
int x=7; x/=2; return x; => 3
int x=7; x%=4; return x; => 3
int x=7; return x+=3; => 10
int x=7; return x-=9; => -2
int x=7; x<<=2; return x; => 28
int x=-7; x>>=1; return x; => -4
int x=7; x&=5; return x; => 5
int x=5; x|=2; return x; => 7
int x=7; x^=2; return x; => 5
int x=1; x+=x=5; return x; => 10
c+=100; return c; => 44
q=a; q+=2; return *q; => 30
q=a+3; q-=1; return *q; => 30
return g++; => 5
g++; return g; => 6
return ++g; => 6
return g--; => 5
return --g; => 4
c=255; c++; return c; => 0
q=a; return *q++ + *q; => 30
q=a+3; return *--q; => 30
return *(a+3-1); => 30
return 2[a]; => 30
return *&*&g; => 5
return (char)(c+100); => 44
return c-201u>5u; => 1
return u>=g; => 1
return u<=-1; => 1
return u<<1>u; => 0
return &a[1]!=&a[2]; => 1
return &a[2]>a; => 1
return &a[3]>=a+3; => 1
return &a[3]<=a; => 0
q=a; return !q; => 0
return q&&g; => 0
q=g?a:0; return q[1]; => 20
q=&a[2]; return q-a; => 2
u/=3; return u; => 1333333333
u%=7; return u; => 3
u>>=4; return u; => 250000000
c<<=1; return c; => 144
c-=201; return c; => 255
b[1]=g; b[0]=b[1]; return b[0]+c; => 205
int v[3]; v[1]=4; return v[1]; => 4
q=a; return (*q)++ + a[0]; => 21
q=a+3; return *q-- - *q; => 10
q=a; return *++q; => 20
m[0][1]=3; m[1][0]=m[0][1]++; return m[1][0]*10+m[0][1]; => 34
set(9); return g; => 9
return sub(9,4); => 5
return sub(sub(9,4),sub(1,2)); => 6
return eighth(1,2,3,4,5,6,7,8); => 81
return 1+sub(9,4)*2; => 11
return (1+2)*(3+4)-((1+1)*(2+2)-(3-1)); => 15
return getchar(); => -1
return putchar(321); => 65";

#[test]
fn each_form_has_its_value(rt: HostRuntime) -> Result<(), Fail> {
    let alloc = rt.alloc();
    for line in BODIES.lines() {
        let (body, value) = line.split_once(" => ").ok_or("a body has a value")?;
        let text = format!(in alloc; "{FRONT}int main(void){{{body}}}")?;
        let value = value.parse::<i32>()?;
        let ended = call(alloc, &["seq", "p.c"], &text, &[], &[])?;
        assert_eq!(rt; ended.status, Status::Done(value), "{body}");
    }
    Ok(())
}

/// What stands before each expression: locals that lie far from the stack pointer, and a function with
/// a large frame, whose code is the longest.
const FAR: &str =
    "int eighth(int i,int j,int k,int l,int n,int o,int r,int s){int w[600]; return s;}
int main(void){int a[600]; int x=1; int y=2; unsigned u=9; char c=7; int *p=a; int *q=a+1; a[0]=5; a[1]=6; ";

/// Expressions, how many nodes each has, and how many of its steps are counted.
const COUNTED: &str = "x => 1 1
c => 1 1
a => 1 1
70000 => 1 1
'A' => 1 1
EOF => 1 1
-x => 2 2
+x => 2 2
~x => 2 2
!x => 2 2
*p => 2 2
&x => 2 2
++x => 2 2
--c => 2 2
p++ => 2 2
q-- => 2 2
(char)x => 2 2
(unsigned)c => 2 2
x*y => 3 3
x/y => 3 3
u/y => 3 3
x%y => 3 3
x+y => 3 3
p+x => 3 3
x-y => 3 3
q-x => 3 3
q-p => 3 3
x<<y => 3 3
x>>y => 3 3
u>>y => 3 3
x<y => 3 3
u>y => 3 3
p<=q => 3 3
x>=y => 3 3
x==y => 3 3
p!=q => 3 3
x&y => 3 3
x^y => 3 3
x|y => 3 3
x&&y => 3 3
x||y => 3 2
x?y:c => 4 3
x=y => 3 3
c=x => 3 3
*p=x => 4 4
a[x]=y => 5 5
x*=y => 3 3
x/=y => 3 3
x%=y => 3 3
x+=y => 3 3
c+=x => 3 3
p+=x => 3 3
q-=x => 3 3
x-=y => 3 3
x<<=y => 3 3
x>>=y => 3 3
x&=y => 3 3
x^=y => 3 3
x|=y => 3 3
a[x] => 3 3
eighth(1,2,3,4,5,6,7,8) => 9 11
getchar() => 1 1
putchar(x) => 2 2";

/// How many words the code of a text has, and how many instructions its run takes.
fn measured(alloc: Global, text: &str) -> Result<(usize, u64), Fail> {
    let bytes = text.as_bytes();
    if bytes.len() > TEXT_BYTES {
        return Err(Fail::from("the text is too long"));
    }
    let program = compile(alloc, bytes)?;
    let ended = call(alloc, &["seq", "p.c"], text, &[], &[])?;
    let (steps, _bytes) = figures(&ended).ok_or("no figures")?;
    Ok((program.code.get().len(), steps))
}

/// What an expression adds to the code and to the run is within the bounds for each node and each step.
#[test]
fn each_form_is_within_its_bounds(rt: HostRuntime) -> Result<(), Fail> {
    let alloc = rt.alloc();
    let (words, steps) = measured(alloc, &format!(in alloc; "{FAR};return 0;}}")?)?;
    for line in COUNTED.lines() {
        let (expression, counts) = line.split_once(" => ").ok_or("an expression has counts")?;
        let (nodes, counted) = counts.split_once(" ").ok_or("there are two counts")?;
        let text = format!(in alloc; "{FAR}{expression};return 0;}}")?;
        let (all_words, all_steps) = measured(alloc, &text)?;
        let most_words = 32 * usize::from(nodes.parse::<u8>()?);
        let most_steps = 256 * u64::from(counted.parse::<u8>()?);
        assert!(rt;
            all_words.saturating_sub(words) <= most_words,
            "{expression}"
        );
        assert!(rt;
            all_steps.saturating_sub(steps) <= most_steps,
            "{expression}"
        );
    }
    Ok(())
}
