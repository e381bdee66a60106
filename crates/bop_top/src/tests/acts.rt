//! Each kind of undefined act with its place, and the steps of small programs.

use super::call;
use crate::Status;
use std::alloc::Global;
use std::test::Fail;

/// The line about the status behind its first word, and the text.
const UNDEFINED: &str = "overflow 1 40: int main(void){int a; a=2147483647; a=a+1; return a;}
overflow 1 43: int main(void){int a; a=-2147483647-1; a=a-1; return a;}
overflow 1 35: int main(void){int a; a=65536; a=a*a; return a;}
overflow 1 42: int main(void){int a; a=-2147483647-1; a=-a; return a;}
overflow 1 38: int main(void){int a; a=2147483647; a++; return a;}
overflow 1 37: int main(void){int a; a=2147483647; ++a; return a;}
overflow 1 38: int main(void){int a; a=2147483647; a+=1; return a;}
overflow 1 61: int main(void){int a; int b; a=-2147483647-1; b=-1; return a/b;}
overflow 1 61: int main(void){int a; int b; a=-2147483647-1; b=-1; return a%b;}
divide 1 36: int main(void){int a; a=0; return 1/a;}
divide 1 34: int main(void){unsigned a; a=0; a%=a; return 0;}
shift 1 37: int main(void){int a; a=32; return 1<<a;}
shift 1 37: int main(void){int a; a=-1; return 1>>a;}
shift 1 37: int main(void){int a; a=-1; return a<<1;}
shift 1 45: int main(void){int a; a=1073741824; return a<<1;}
access 1 36: int main(void){int *p; p=0; return *p;}
access 1 31: int main(void){int *p; p=0; *p=1; return 0;}
access 1 29: int main(void){int *p; p=0; *p+=1; return 0;}
access 1 42: int main(void){int a[3]; a[2]=1; return a[3];}
access 1 30: int main(void){int a[3]; a[3]=1; return 0;}
access 1 51: int main(void){int *p; {int a; a=1; p=&a;} return *p;}
access 1 77: int *p; int f(void){int a; a=1; p=&a; return 0;} int main(void){f(); return *p;}
indeterminate 1 30: int main(void){int a; return a;}
indeterminate 1 23: int main(void){int a; a+=1; return 0;}
indeterminate 1 23: int main(void){int a; a++; return 0;}
indeterminate 1 42: int main(void){int a[2]; a[0]=1; return a[1];}
indeterminate 1 63: int main(void){int i; for(i=0;i<2;i++){int a; if(i==1) return a; a=1;} return 0;}
indeterminate 1 63: int main(void){int i; for(i=0;i<2;i++){if(i==1){int a; return a;} else {int a; a=1;}} return 0;}
pointer 1 42: int a[3]; int main(void){int *p; p=a; p=p+4; return 0;}
pointer 1 42: int a[3]; int main(void){int *p; p=a; p=p-1; return 0;}
pointer 1 34: int a[3]; int main(void){return a[4];}
pointer 1 42: int a[3]; int main(void){int *p; p=a+3; p++; return 0;}
pointer 1 46: int a; int c; int b; int main(void){return &a<&b;}
pointer 1 46: int a; int c; int b; int main(void){return &a-&b;}
pointer 1 42: int a[3]; int main(void){int *p; p=a; p=p+2147483647; return 0;}
pointer 1 42: int a[3]; int main(void){int *p; p=a; p=p-2147483647; return 0;}
pointer 1 42: int a[3]; int main(void){int *p; p=a; p=p+4294967295u; return 0;}
pointer 1 42: int a[3]; int main(void){int *p; p=0; p=p+1; return 0;}
pointer 1 60: int a[3]; int main(void){int *p; int *q; p=a; q=0; return p-q;}
no-value 1 37: int f(void){} int main(void){return f();}
no-value 1 61: int f(int n){if(n) return 1;} int main(void){f(0); return 1+f(0);}
divide 1 45: int main(void){int *p; int z; p=0; z=0; *p=1/z; return 0;}
access 1 48: int main(void){int *p; int z; p=0; z=0; return *p+1/z;}";

/// How many steps a text takes, counted by hand: one for the start of `main`, for each node of an expression that is evaluated, for each statement but a block or a declaration without an initialiser, and for each turn of a loop.
const STEPS: &str = "1: int main(void){}
1: int main(void){int a; {}}
3: int main(void){;;}
3: int main(void){return 0;}
4: int main(void){return (char)300;}
4: int main(void){return 0&&1;}
5: int main(void){return 1&&0;}
4: int main(void){return 1||0;}
5: int main(void){return 1?2:3;}
5: int main(void){return 1+2;}
6: int main(void){putchar('A');return 0;}
5: int main(void){int a=5; return a;}
7: int main(void){int a; a=1; return a;}
9: int main(void){int a=1; a+=2; return a;}
8: int main(void){int a=1; a++; return a;}
9: int a; int main(void){*&a=1; return 0;}
11: int main(void){int a[2]; a[1]=5; return a[1];}
5: int main(void){if(0) ; return 0;}
6: int main(void){if(1) ; else ; return 0;}
5: int main(void){while(0) ; return 0;}
7: int main(void){while(1) break; return 0;}
23: int main(void){int i=0; while(i<2) i++; return 0;}
24: int main(void){int i; for(i=0;i<2;i++) ; return 0;}
6: int main(void){for(;;){break;} return 0;}
7: int main(void){do ; while(0); return 0;}
6: int f(int n){return n;} int main(void){return f(4);}
5: int main(void){BeginPPR(1); EndPPR(1); return 0;}";

#[test]
fn an_undefined_act_is_named_with_its_place(rt: HostRuntime) -> Result<(), Fail> {
    let alloc = rt.alloc();
    for row in UNDEFINED.lines() {
        let (act, text) = row.split_once(": ").ok_or("a row has two parts")?;
        let ended = call(alloc, &["mean", "p.c"], text, &[], &[])?;
        let report = format!(in alloc; "status undefined {act}\nbytes 0\n")?;
        assert_eq!(rt; ended.report.content(), report.as_bytes(), "{text}");
    }
    Ok(())
}

/// Nothing is evaluated behind an act that is undefined, and what was put out before stays.
#[test]
fn nothing_is_evaluated_behind_an_undefined_act(rt: HostRuntime) -> Result<(), Fail> {
    let alloc = rt.alloc();
    let text = "int main(void){int z; z=0; putchar('a'); z=1/z; putchar('b'); return 0;}";
    let ended = call(alloc, &["mean", "p.c"], text, &[], &[])?;
    assert_eq!(rt; ended.output.content(), b"a".as_slice());
    assert_eq!(rt;
        ended.report.content(),
        b"status undefined divide 1 45\nbytes 1\n".as_slice()
    );
    Ok(())
}

/// How a text ends within so many steps.
fn ended_within(alloc: Global, text: &str, steps: u64) -> Result<Status, Fail> {
    let budget = format!(in alloc; "{steps}")?;
    let words = ["mean", "p.c", "--budget", budget.as_str()];
    Ok(call(alloc, &words, text, &[], &[])?.status)
}

/// A text ends within as many steps as it takes, and not within one less.
#[test]
fn each_text_takes_its_steps(rt: HostRuntime) -> Result<(), Fail> {
    let alloc = rt.alloc();
    for row in STEPS.lines() {
        let (steps, text) = row.split_once(": ").ok_or("a row has two parts")?;
        let steps = steps.parse::<u64>()?;
        let ended = ended_within(alloc, text, steps)?;
        assert!(rt; matches!(ended, Status::Done(_)), "{text}");
        if steps > 1 {
            let cut = ended_within(alloc, text, steps - 1)?;
            assert_eq!(rt; cut, Status::MoreSteps, "{text}");
        }
    }
    Ok(())
}
