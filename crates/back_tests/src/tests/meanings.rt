//! What programs put out and how they end: what globals hold at first, and which names, types and places count.

use crate::tests::accepted::accepted;
use c_meaning::{Meant, Output, evaluate};
use std::alloc::Global;
use std::test::Fail;

/// Globals, the statements of `main`, and what these put out with how they end.
const ROWS: [[&str; 3]; 3] = [
    [
        "int a; int b=67305985; int c=-2; unsigned d=4294967295u; char e=300; char f=-1; int *g=0; \
        char *h[2];",
        "putchar(a); putchar(b); putchar(b>>8); putchar(b>>16); putchar(b>>24); putchar(d>>24); \
        putchar(e); putchar(f); putchar(g==0); putchar(h[0]==0&&h[1]==0); return c;",
        "0 1 2 3 4 255 44 255 1 1 exits -2",
    ],
    // A loop over an array goes on until it leaves the object.
    [
        "int a; char v[5]={7,-1}; int b=9;",
        "for(int i=0;;i++) putchar(v[i]);",
        "7 255 0 0 0 Access",
    ],
    [
        "char u[2]={7,8}; char v[3]={9}; char w[2][3]; int x[3]={65,-191};",
        "for(int i=0;i<3;i++) {putchar(v[i]); putchar(w[1][i]); putchar(x[i]);} \
        putchar(u[1]); return x[3];",
        "9 0 65 0 0 65 0 0 0 8 Access",
    ],
];

/// Bytes, and how a program ends that puts them out.
fn ended(alloc: Global, output: &Output, end: &str) -> Result<String, Fail> {
    let mut all = String::new(alloc);
    for byte in output.get() {
        all.push_str(&format!(in alloc; "{byte} ")?)?;
    }
    all.push_str(end)?;
    Ok(all)
}

fn meaning_text(alloc: Global, meant: &Meant) -> Result<String, Fail> {
    match meant {
        Meant::Done(output, exit) => ended(alloc, output, &format!(in alloc; "exits {exit}")?),
        Meant::StackFull(output) => ended(alloc, output, "StackFull"),
        Meant::More(output) => ended(alloc, output, "More"),
        Meant::Undefined(output, act, _) => ended(alloc, output, &format!(in alloc; "{act:?}")?),
    }
}

fn meaning_of(alloc: Global, text: &str, input: &[u8]) -> Result<String, Fail> {
    let (checked, layout) = accepted(alloc, text)?;
    let meant = evaluate(alloc, &checked, &layout, input, 1000)?;
    meaning_text(alloc, &meant)
}

#[test]
fn what_is_not_given_is_zero(rt: HostRuntime) -> Result<(), Fail> {
    let alloc = rt.alloc();
    for [globals, body, want] in ROWS {
        let text = format!(in alloc; "{globals} int main(void){{{body}}}")?;
        let found = meaning_of(alloc, text.as_str(), b"")?;
        assert_eq!(rt; found.as_str(), want, "at {globals}");
    }
    Ok(())
}

/// Texts, their input, and what they put out with how they end.
const TEXTS: [[&str; 3]; 5] = [
    // A hidden name comes back.
    [
        "char x=5; int f(void){return x;} \
        int main(void){int x; {char x; x=1; putchar(x);} x=2; putchar(f()); return x;}",
        "",
        "1 5 exits 2",
    ],
    // A sum knows what its pointer points to.
    [
        "char a[2][3]; int main(void){unsigned u; u=1; a[1][0]=7; putchar(*(*(a+u))); \
        return a+u==a;}",
        "",
        "7 exits 0",
    ],
    // A call knows its function, also one that is defined later, and what it gives is of its type.
    [
        "char f(int n){return n;} int g(void); int main(void){return f(getchar()+256)+g();} \
        int g(void){return 1;}",
        "A",
        "exits 66",
    ],
    // An act knows how its operands take part, and what its object holds.
    [
        "unsigned u; char a[4]; int main(void){char *p; p=&a[1]; *p=u>>1; u=u-1; putchar(u>>31); \
        return (char)-p[0]?~7:(a[3]+=258);}",
        "",
        "1 exits 2",
    ],
    // Each local has its place, and each block its locals.
    [
        "int main(void){int i; i=9; if(1){char c; c=1; putchar(c);} else {int d=2,e;} \
        for(int j=0;j<3;j++) {int k=j; putchar(k); continue;} do ; while(0); while(1) break; \
        return i;}",
        "",
        "1 0 1 2 exits 9",
    ],
];

#[test]
fn names_types_and_places_are_worked_out(rt: HostRuntime) -> Result<(), Fail> {
    for [text, input, want] in TEXTS {
        let found = meaning_of(rt.alloc(), text, input.as_bytes())?;
        assert_eq!(rt; found.as_str(), want, "at {text}");
    }
    Ok(())
}
